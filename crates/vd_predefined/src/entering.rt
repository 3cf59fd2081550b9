//! Entering what no file declares. A declaration is refused where it may not stand beside those that stand there before. Operators are
//! entered unchecked too, for whoever goes on behind a broken rule.

ghost use Rattle.std.specs.Prelude.{◌≡◌, ℕ, ◌<◌, ◌∷◌, [], OnOk, IfOk, Err, Some, None, true, length, map};
ghost use Rattle.vd_regions.specs.Scopes.{Scopes, declaration_at};
ghost use Rattle.vd_regions.specs.Homographs.{homograph};
ghost use Rattle.vd_predefined.specs.Entries.{declared, unit, with_entry, with_values};
ghost use Rattle.vd_predefined.specs.Seen.{seen_operator};
ghost use Rattle.vd_predefined.specs.Operators.{with_left, with_pair, pair_of, with_pair_of, pair_or, with_operands, operands_of, pair_at, result_type, right_operand, operator_of, with_group, with_groups, with_operators, is_discrete, groups_of_arrays, with_operators_of};
ghost use Rattle.vd_predefined.specs.GivenClashes.{clash_of_values};
ghost use Rattle.vd_predefined.specs.Clashes.{clash_of_pair, clash_of_pair_of, clash_of_operands, clash_of_group, clash_of_groups, clash_of_operators, clash_of_operators_of};
ghost use Rattle.vd_declarations.specs.declared.classes.Class.TheVariants as class;
ghost use Rattle.std.specs.List.{All};
ghost use Rattle.vd_declarations.specs.Classes.{types_of};

use crate::numbers::{BIT, BOOLEAN, INTEGER};
use crate::operands::{Operands, Pair};
use crate::operators::{Group, Operand, Operator, Outcome, operators_in};
use crate::tables::{
    OF_DISCRETE_ARRAYS, OF_ENUMERATIONS, OF_LOGIC_ARRAYS, OF_OTHER_ARRAYS, OF_OTHERS,
};
use std::alloc::{AllocError, Global};
use vd_bytes::{Place, Text};
use vd_declarations::{Class, DeclId, Declaration, Declarations, Made, RegionId, TypeId};
use vd_regions::{EnterEnd, Regions};

/// A declaration that no file has.
fn declaration(
    alloc: Global,
    class: Class,
    name: &str,
    mark: Option<TypeId>,
    parameters: Vec<DeclId>,
) -> Result<Declaration, AllocError>
    ensures { IfOk result (λ d. d ≡ declared class name.now mark parameters.items) }
{
    let wanted = Text::from_slice(alloc, name.as_bytes())?;
    let name = Text::from_slice(alloc, name.as_bytes())?;
    Ok(Declaration {
        class,
        name,
        mark,
        parameters: Declarations::of(parameters),
        generics: Declarations::of(Vec::new(alloc)),
        inside: None,
        place: Place {
            file: 0,
            line: 1,
            column: 1,
        },
        made: Made::Written,
        wanted,
    })
}

/// Enters a declaration that no file has and that has no parameters.
pub(crate) fn enter_plain(
    alloc: Global,
    regions: &mut Regions,
    region: RegionId,
    class: Class,
    name: &str,
    mark: Option<TypeId>,
) -> Result<DeclId, EnterEnd>
    ensures entered { IfOk result (λ id. (id ≡ length regions.old.entered) × (regions.new ≡ with_entry regions.old region (declared class name.now mark []))) }
    ensures free { OnOk result (homograph regions.old region (declared class name.now mark []) ≡ None) }
    ensures taken { (id : ℕ) → result ≡ Err (EnterEnd.Homograph id) → homograph regions.old region (declared class name.now mark []) ≡ Some id }
{
    let declared = declaration(alloc, class, name, mark, Vec::new(alloc))?;
    regions.enter(region, name, declared)
}

/// Enters a function of one parameter.
pub(crate) fn enter_with(
    alloc: Global,
    regions: &mut Regions,
    region: RegionId,
    class: Class,
    name: &str,
    mark: Option<TypeId>,
    operand: DeclId,
) -> Result<DeclId, EnterEnd>
    ensures entered { OnOk result (regions.new ≡ with_entry regions.old region (declared class name.now mark (operand ∷ []))) }
    ensures free { OnOk result (homograph regions.old region (declared class name.now mark (operand ∷ [])) ≡ None) }
    ensures taken { (id : ℕ) → result ≡ Err (EnterEnd.Homograph id) → homograph regions.old region (declared class name.now mark (operand ∷ [])) ≡ Some id }
{
    let operands = one_of(alloc, operand)?;
    let declared = declaration(alloc, class, name, mark, operands)?;
    regions.enter(region, name, declared)
}

/// A list of one declaration.
fn one_of(alloc: Global, id: DeclId) -> Result<Vec<DeclId>, AllocError>
    ensures { IfOk result (λ ids. ids.items ≡ id ∷ []) }
{
    let mut ids = Vec::new(alloc);
    ids.push(id)?;
    Ok(ids)
}

/// Enters a library or a package.
pub(crate) fn enter_unit(
    alloc: Global,
    regions: &mut Regions,
    region: u32,
    class: Class,
    name: &str,
    inside: u32,
) -> Result<(), EnterEnd>
    ensures entered { OnOk result (regions.new ≡ with_entry regions.old region (unit class name.now inside)) }
    ensures free { OnOk result (homograph regions.old region (unit class name.now inside) ≡ None) }
    ensures taken { (id : ℕ) → result ≡ Err (EnterEnd.Homograph id) → homograph regions.old region (unit class name.now inside) ≡ Some id }
{
    let mut declared = declaration(alloc, class, name, None, Vec::new(alloc))?;
    declared.inside = Some(RegionId::of(inside));
    regions.enter(RegionId::of(region), name, declared)?;
    Ok(())
}

/// Enters the literals or units of a type.
pub(crate) fn enter_values(
    alloc: Global,
    regions: &mut Regions,
    region: RegionId,
    class: &Class,
    own: u32,
    names: &[&str],
) -> Result<(), EnterEnd>
    ensures entered { OnOk result (regions.new ≡ with_values regions.old region class.now own (map (λ n. n.now) names.now)) }
    ensures free { OnOk result (clash_of_values regions.old region class.now own (map (λ n. n.now) names.now) ≡ None) }
    ensures taken { (id : ℕ) → result ≡ Err (EnterEnd.Homograph id) → clash_of_values regions.old region class.now own (map (λ n. n.now) names.now) ≡ Some id }
{
    for name in names {
        let mark = Some(TypeId::of(own));
        enter_plain(alloc, regions, region, *class, name, mark)?;
    }
    Ok(())
}

/// Puts a declaration into a region. Where it is checked, it is refused beside a homograph, and otherwise it goes in whatever stands
/// there.
fn put(
    regions: &mut Regions,
    region: RegionId,
    name: &str,
    declared: Declaration,
    checked: bool,
) -> Result<DeclId, EnterEnd>
    requires own_name { name.now ≡ declared.name }
    ensures entered { IfOk result (λ id. (id ≡ length regions.old.entered) × (regions.new ≡ with_entry regions.old region declared)) }
    ensures free { OnOk result (checked ≡ true → homograph regions.old region declared ≡ None) }
    ensures taken { (id : ℕ) → result ≡ Err (EnterEnd.Homograph id) → homograph regions.old region declared ≡ Some id }
    ensures only_checked { (id : ℕ) → result ≡ Err (EnterEnd.Homograph id) → checked ≡ true }
{
    if checked {
        return regions.enter(region, name, declared);
    }
    let id = regions.add(region, declared)?;
    Ok(id)
}

/// Enters an operand.
fn enter_operand(
    alloc: Global,
    regions: &mut Regions,
    inside: RegionId,
    name: &str,
    own: u32,
    checked: bool,
) -> Result<DeclId, EnterEnd>
    ensures entered { IfOk result (λ id. (id ≡ length regions.old.entered)
        × (regions.new ≡ with_entry regions.old inside (declared class.Parameter name.now (Some own) []))) }
    ensures free { OnOk result (checked ≡ true → homograph regions.old inside (declared class.Parameter name.now (Some own) []) ≡ None) }
    ensures taken { (id : ℕ) → result ≡ Err (EnterEnd.Homograph id) → homograph regions.old inside (declared class.Parameter name.now (Some own) []) ≡ Some id }
    ensures only_checked { (id : ℕ) → result ≡ Err (EnterEnd.Homograph id) → checked ≡ true }
{
    let mark = Some(TypeId::of(own));
    let declared = declaration(alloc, Class::Parameter, name, mark, Vec::new(alloc))?;
    put(regions, inside, name, declared, checked)
}

/// Enters the operands `l` and `r` of a type, in a region of their own.
fn enter_pair(
    alloc: Global,
    regions: &mut Regions,
    region: RegionId,
    own: u32,
    checked: bool,
) -> Result<Pair, EnterEnd>
    ensures entered { IfOk result (λ pair. (pair ≡ pair_of regions.old region own) × (regions.new ≡ with_pair regions.old region own)) }
    ensures free { OnOk result (checked ≡ true → clash_of_pair regions.old region own ≡ None) }
    ensures taken { (id : ℕ) → result ≡ Err (EnterEnd.Homograph id) → clash_of_pair regions.old region own ≡ Some id }
    ensures only_checked { (id : ℕ) → result ≡ Err (EnterEnd.Homograph id) → checked ≡ true }
{
    let inside = regions.add_like(region, None, false)?;
    let left = enter_operand(alloc, regions, inside, "l", own, checked)?;
    let right = enter_operand(alloc, regions, inside, "r", own, checked)?;
    Ok(Pair {
        left: left.number(),
        right: right.number(),
    })
}

/// Enters the operands of the type of a type's elements, where it has one.
fn enter_pair_of(
    alloc: Global,
    regions: &mut Regions,
    region: RegionId,
    element: Option<u32>,
    other: Pair,
    checked: bool,
) -> Result<Pair, EnterEnd>
    ensures entered { IfOk result (λ pair. (pair ≡ pair_or regions.old region element other) × (regions.new ≡ with_pair_of regions.old region element)) }
    ensures free { OnOk result (checked ≡ true → clash_of_pair_of regions.old region element ≡ None) }
    ensures taken { (id : ℕ) → result ≡ Err (EnterEnd.Homograph id) → clash_of_pair_of regions.old region element ≡ Some id }
    ensures only_checked { (id : ℕ) → result ≡ Err (EnterEnd.Homograph id) → checked ≡ true }
{
    match element {
        Some(element) => enter_pair(alloc, regions, region, element, checked),
        None => Ok(other),
    }
}

/// Enters the operands of a type's operators.
fn enter_operands(
    alloc: Global,
    regions: &mut Regions,
    region: RegionId,
    own: u32,
    element: Option<u32>,
    checked: bool,
) -> Result<Operands, EnterEnd>
    ensures entered { IfOk result (λ operands. (operands ≡ operands_of regions.old region own element) × (regions.new ≡ with_operands regions.old region own element)) }
    ensures free { OnOk result (checked ≡ true → clash_of_operands regions.old region own element ≡ None) }
    ensures taken { (id : ℕ) → result ≡ Err (EnterEnd.Homograph id) → clash_of_operands regions.old region own element ≡ Some id }
    ensures only_checked { (id : ℕ) → result ≡ Err (EnterEnd.Homograph id) → checked ≡ true }
{
    let pair = enter_pair(alloc, regions, region, own, checked)?;
    let elements = enter_pair_of(alloc, regions, region, element, pair, checked)?;
    let integers = enter_pair(alloc, regions, region, INTEGER, checked)?;
    Ok(Operands {
        own_type: own,
        element_type: element.unwrap_or(own),
        own: pair,
        element: elements,
        integer: integers,
    })
}

/// The pair of an operand's type.
fn pair_at(operands: &Operands, operand: Operand) -> Pair
    ensures { result ≡ pair_at operands.now operand }
{
    match operand {
        Operand::Own => operands.own,
        Operand::Element => operands.element,
        Operand::Integer => operands.integer,
    }
}

/// The type of a result.
fn result_type(operands: &Operands, result_is: Outcome) -> u32
    ensures { result ≡ result_type operands.now result_is }
{
    match result_is {
        Outcome::Own => operands.own_type,
        Outcome::Element => operands.element_type,
        Outcome::Boolean => BOOLEAN,
    }
}

/// The operands of an operator.
fn parameters(
    alloc: Global,
    operands: &Operands,
    operator: &Operator,
) -> Result<Vec<DeclId>, AllocError>
    ensures { IfOk result (λ ids. ids.items ≡ (pair_at operands.now operator.now.left).left ∷ right_operand operands.now operator.now.right) }
{
    let mut ids = Vec::new(alloc);
    ids.push(DeclId::of(pair_at(operands, operator.left).left))?;
    if let Some(right) = operator.right {
        ids.push(DeclId::of(pair_at(operands, right).right))?;
    }
    Ok(ids)
}

/// Enters an operator.
fn enter_operator(
    alloc: Global,
    regions: &mut Regions,
    region: RegionId,
    class: &Class,
    operands: &Operands,
    operator: &Operator,
    checked: bool,
) -> Result<DeclId, EnterEnd>
    ensures entered { OnOk result (regions.new ≡ with_entry regions.old region (operator_of class.now operands.now (seen_operator operator.now))) }
    ensures free { OnOk result (checked ≡ true → homograph regions.old region (operator_of class.now operands.now (seen_operator operator.now)) ≡ None) }
    ensures taken { (id : ℕ) → result ≡ Err (EnterEnd.Homograph id) → homograph regions.old region (operator_of class.now operands.now (seen_operator operator.now)) ≡ Some id }
    ensures only_checked { (id : ℕ) → result ≡ Err (EnterEnd.Homograph id) → checked ≡ true }
{
    let ids = parameters(alloc, operands, operator)?;
    let mark = Some(TypeId::of(result_type(operands, operator.result)));
    let declared = declaration(alloc, *class, operator.name, mark, ids)?;
    put(regions, region, operator.name, declared, checked)
}

/// Enters some operators.
fn enter_group(
    alloc: Global,
    regions: &mut Regions,
    region: RegionId,
    class: &Class,
    operands: &Operands,
    group: &[Operator],
    checked: bool,
) -> Result<(), EnterEnd>
    ensures entered { OnOk result (regions.new ≡ with_group regions.old region class.now operands.now (map seen_operator group.now)) }
    ensures free { OnOk result (checked ≡ true → clash_of_group regions.old region class.now operands.now (map seen_operator group.now) ≡ None) }
    ensures taken { (id : ℕ) → result ≡ Err (EnterEnd.Homograph id) → clash_of_group regions.old region class.now operands.now (map seen_operator group.now) ≡ Some id }
    ensures only_checked { (id : ℕ) → result ≡ Err (EnterEnd.Homograph id) → checked ≡ true }
{
    for operator in group {
        enter_operator(alloc, regions, region, class, operands, operator, checked)?;
    }
    Ok(())
}

/// Enters the operators of some groups.
fn enter_groups(
    alloc: Global,
    regions: &mut Regions,
    region: RegionId,
    class: &Class,
    operands: &Operands,
    groups: &[Group],
    checked: bool,
) -> Result<(), EnterEnd>
    ensures entered { OnOk result (regions.new ≡ with_groups regions.old region class.now operands.now groups.now) }
    ensures free { OnOk result (checked ≡ true → clash_of_groups regions.old region class.now operands.now groups.now ≡ None) }
    ensures taken { (id : ℕ) → result ≡ Err (EnterEnd.Homograph id) → clash_of_groups regions.old region class.now operands.now groups.now ≡ Some id }
    ensures only_checked { (id : ℕ) → result ≡ Err (EnterEnd.Homograph id) → checked ≡ true }
{
    for group in groups {
        let operators = operators_in(*group);
        enter_group(alloc, regions, region, class, operands, operators, checked)?;
    }
    Ok(())
}

/// Enters operands of a type, and operators over them.
pub(crate) fn enter_operators(
    alloc: Global,
    regions: &mut Regions,
    region: RegionId,
    class: &Class,
    own: u32,
    element: Option<u32>,
    groups: &[Group],
    checked: bool,
) -> Result<(), EnterEnd>
    ensures entered { OnOk result (regions.new ≡ with_operators regions.old region class.now own element groups.now) }
    ensures free { OnOk result (checked ≡ true → clash_of_operators regions.old region class.now own element groups.now ≡ None) }
    ensures taken { (id : ℕ) → result ≡ Err (EnterEnd.Homograph id) → clash_of_operators regions.old region class.now own element groups.now ≡ Some id }
    ensures only_checked { (id : ℕ) → result ≡ Err (EnterEnd.Homograph id) → checked ≡ true }
{
    let operands = enter_operands(alloc, regions, region, own, element, checked)?;
    enter_groups(alloc, regions, region, class, &operands, groups, checked)
}

/// Whether a type is an enumeration type or INTEGER.
fn is_discrete(class: Class) -> bool
    ensures { result ≡ is_discrete class }
{
    matches!(class, Class::EnumerationType | Class::IntegerType)
}

/// The class of a declaration. A number that no declaration has stands for a label, as the definitions have it.
fn class_at(regions: &Regions, id: DeclId) -> Class
    ensures { result ≡ (declaration_at regions.now id).class }
{
    if regions.is_declaration(id) {
        regions.declaration(id).class
    } else {
        Class::Label
    }
}

/// The operators of an array type whose elements have this type.
fn groups_of_arrays(regions: &Regions, element: TypeId) -> &'static [Group]
    ensures { result.now ≡ groups_of_arrays regions.now element }
{
    let number = element.number();
    if number == BIT || number == BOOLEAN {
        OF_LOGIC_ARRAYS
    } else if is_discrete(class_at(regions, DeclId::of(number))) {
        OF_DISCRETE_ARRAYS
    } else {
        OF_OTHER_ARRAYS
    }
}

/// Enters the operators that a type of a class brings with it.
fn enter_operators_of(
    alloc: Global,
    regions: &mut Regions,
    region: RegionId,
    own: u32,
    class: Class,
    checked: bool,
) -> Result<(), EnterEnd>
    ensures entered { OnOk result (regions.new ≡ with_operators_of regions.old region own class) }
    ensures free { OnOk result (checked ≡ true → clash_of_operators_of regions.old region own class ≡ None) }
    ensures taken { (id : ℕ) → result ≡ Err (EnterEnd.Homograph id) → clash_of_operators_of regions.old region own class ≡ Some id }
    ensures only_checked { (id : ℕ) → result ≡ Err (EnterEnd.Homograph id) → checked ≡ true }
{
    let brought = Class::PredefinedOperator;
    let (element, groups) = match class {
        Class::EnumerationType => (None, OF_ENUMERATIONS),
        Class::ArrayType { element, .. } => {
            (Some(element.number()), groups_of_arrays(regions, element))
        }
        Class::RecordType | Class::GenericType => (None, OF_OTHERS),
        _ => return Ok(()),
    };
    enter_operators(
        alloc, regions, region, &brought, own, element, groups, checked,
    )
}

/// Enters the operators that a type of a user brings with it, right behind the type. After an Err some may be entered.
pub fn declare_operators(
    alloc: Global,
    regions: &mut Regions,
    region: RegionId,
    own: TypeId,
    class: Class,
) -> Result<(), EnterEnd>
    requires region_in { region < length regions.old.regions }
    requires known { All (λ t. t < length regions.old.entered) (types_of class) }
    ensures entered { OnOk result (regions.new ≡ with_operators_of regions.old region own class) }
    ensures free { OnOk result (clash_of_operators_of regions.old region own class ≡ None) }
    ensures taken { (id : ℕ) → result ≡ Err (EnterEnd.Homograph id) → clash_of_operators_of regions.old region own class ≡ Some id }
{
    enter_operators_of(alloc, regions, region, own.number(), class, true)
}

/// Enters the operators that a type brings with it, right behind the type, whatever stands in the region. After an Err some may be
/// entered.
pub fn bring_operators(
    alloc: Global,
    regions: &mut Regions,
    region: RegionId,
    own: TypeId,
    class: Class,
) -> Result<(), AllocError>
    ensures { OnOk result (regions.new ≡ with_operators_of regions.old region own class) }
{
    match enter_operators_of(alloc, regions, region, own.number(), class, false) {
        Ok(()) => Ok(()),
        Err(EnterEnd::Memory) => Err(AllocError),
        Err(EnterEnd::Homograph(_)) => unreachable!(),
    }
}
