//! What the parts of a node are to it.

ghost use Rattle.std.specs.Prelude.{◌≡◌, ◌∷◌, IfOk, List, OnOk, false, if◌then◌else◌, true};
ghost use Rattle.vd_known_designs.specs.Designs.{IsReady, Knows};
ghost use Rattle.vd_meaning.specs.Meanings.{meanings};
ghost use Rattle.vd_meaning.specs.Names.{number_or as number_or_first};
ghost use Rattle.vd_meaning.specs.Tables.{Table, followed as function_followed, role_of as role_in};
ghost use Rattle.vd_port_modes.specs.Source.{design_in};
ghost use Rattle.vd_resolved.specs.declared.node.Resolved.{Resolved as Node};
ghost use Rattle.vd_meaning.specs.Declarations.{has_bounds as subtype_has_bounds};
ghost use Rattle.vd_contexts.specs.declared.rows.Row.TheVariants as row_kind;
ghost use Rattle.vd_contexts.specs.Rows.{bounded_by, one_evaluated, passed_by as by_passing};
ghost use Rattle.vd_contexts.specs.Standing.{standing_of, standings_in};
ghost use Rattle.vd_value_rules.specs.Designs.{Design};
ghost use Rattle.vd_value_rules.specs.Knowledge.{Known, indicated};
ghost use Rattle.vd_value_rules.specs.Standings.{State, generics_of as generics_of_unit, in_brackets as brackets_of_role, is_bounded_indicated, is_one_element as are_one_element, parts_of_generic_map, passed_to_function, standing, standings};

use crate::elements::{is_bounded as is_bounded_object, is_one_element, passed};
use crate::lists::{READ, fixed, is_bounded, mapped, unless_formal};
use crate::rows::{Row, Sort, row_of, sort_of};
use std::alloc::{AllocError, Global};
use vd_declarations::DeclId;
use vd_forest::Cursor;
use vd_known_designs::KnownDesign;
use vd_known_indications::indicated_twice;
use vd_operations::Role;
use vd_operations::tables::{followed, is_predefined, parameters_of};
use vd_port_modes::Interfaces;
use vd_resolved::Resolved;
use vd_value_rules::subtypes::has_bounds;

/// What a tree is to the node above it.
#[derive(Clone, Copy)]
pub enum Standing {
    /// An expression, whose place gives bounds for an aggregate with `others` or doesn't.
    Evaluated { is_bounded: bool },
    /// The same, in text that is written out again elsewhere.
    Copied { is_bounded: bool },
    /// An element of a call or of a generic map, in front of whose `=>` a parameter or generic is named.
    Passed { is_bounded: bool },
    /// A generic map for the generics of a unit.
    MappedTo { unit: Option<DeclId> },
    /// An element of a port map, and its actual.
    Associated,
    /// What is named in front of `=>` in a call or map.
    Formal,
    /// The target of a signal assignment or of a variable assignment.
    Assigned { to_signal: bool },
}

/// A declaration, or the first one of all where there is none.
fn number_or(number: Option<DeclId>) -> u32
    ensures { result ≡ number_or_first number }
{
    match number {
        Some(number) => number.number(),
        None => 0,
    }
}

/// The generics of a unit.
fn generics_of<'t>(interfaces: &Interfaces<'t>, unit: Option<DeclId>) -> &'t [DeclId]
    ensures { result.now ≡ generics_of_unit (design_in interfaces.now) unit }
{
    let Some(unit) = unit else {
        return &[];
    };
    match interfaces.declarations().get(unit.number() as usize) {
        Some(declaration) => declaration.generics.as_slice(),
        None => &[],
    }
}

/// Elements that are passed to a function. Predefined ones take arrays of any bounds.
fn passed_to(
    alloc: Global,
    design: &KnownDesign<'_, '_>,
    interfaces: &Interfaces<'_>,
    function: u32,
    elements: &Cursor<'_, Resolved>,
) -> Result<Vec<Standing>, AllocError>
    requires ready { IsReady design.now }
    ensures { (k : Known) (ks : List Known) → Knows (design_in interfaces.now) design.now (k ∷ ks) → IfOk result (λ xs. standings_in (design_in interfaces.now) xs.items
        ≡ passed_to_function (design_in interfaces.now) k.env function (meanings (design_in interfaces.now).table elements.now)) }
{
    let declarations = interfaces.declarations();
    let gives_bounds = !is_predefined(interfaces.revision(), declarations, function);
    passed(
        alloc,
        design,
        gives_bounds,
        parameters_of(declarations, function),
        elements,
    )
}

/// The function that a node names.
fn function_named(interfaces: &Interfaces<'_>, node: &Resolved) -> u32
    ensures { result ≡ function_followed (design_in interfaces.now).table (number_or_first node.now.declaration) }
{
    followed(interfaces.declarations(), number_or(node.declaration))
}

/// Elements in brackets behind a name.
fn in_brackets(
    alloc: Global,
    design: &KnownDesign<'_, '_>,
    interfaces: &Interfaces<'_>,
    node: &Resolved,
    elements: &Cursor<'_, Resolved>,
) -> Result<Vec<Standing>, AllocError>
    requires ready { IsReady design.now }
    ensures { (k : Known) (ks : List Known) → Knows (design_in interfaces.now) design.now (k ∷ ks) → IfOk result (λ xs. standings_in (design_in interfaces.now) xs.items
        ≡ brackets_of_role (role_in (design_in interfaces.now).table node.now.declaration) (design_in interfaces.now) k.env
        (number_or_first node.now.declaration) (meanings (design_in interfaces.now).table elements.now)) }
{
    match interfaces.role_of(node.declaration) {
        Role::Function => {
            let function = function_named(interfaces, node);
            passed_to(alloc, design, interfaces, function, elements)
        }
        _ => Vec::from_slice(alloc, &[Standing::Evaluated { is_bounded: false }]),
    }
}

/// Elements of a generic map.
fn in_generic_map(
    alloc: Global,
    design: &KnownDesign<'_, '_>,
    interfaces: &Interfaces<'_>,
    own: Standing,
    elements: &Cursor<'_, Resolved>,
) -> Result<Vec<Standing>, AllocError>
    requires ready { IsReady design.now }
    ensures { (k : Known) (ks : List Known) → Knows (design_in interfaces.now) design.now (k ∷ ks) → IfOk result (λ xs. standings_in (design_in interfaces.now) xs.items
        ≡ parts_of_generic_map (standing_of (design_in interfaces.now) own) k.env (meanings (design_in interfaces.now).table elements.now)) }
{
    match own {
        Standing::MappedTo { unit } => {
            passed(alloc, design, true, generics_of(interfaces, unit), elements)
        }
        _ => Vec::from_slice(alloc, &[Standing::Passed { is_bounded: false }]),
    }
}

/// What is passed.
fn passed_by(
    alloc: Global,
    design: &KnownDesign<'_, '_>,
    interfaces: &Interfaces<'_>,
    row: Row,
    own: Standing,
    node: &Resolved,
    parts: &Cursor<'_, Resolved>,
) -> Result<Vec<Standing>, AllocError>
    requires ready { IsReady design.now }
    ensures { (k : Known) (ks : List Known) → Knows (design_in interfaces.now) design.now (k ∷ ks) → IfOk result (λ xs. standings_in (design_in interfaces.now) xs.items
        ≡ by_passing row (design_in interfaces.now) k.env (standing_of (design_in interfaces.now) own) node.now parts.now) }
{
    match row {
        Row::Brackets => {
            let others = in_brackets(alloc, design, interfaces, node, parts)?;
            unless_formal(alloc, own, others)
        }
        Row::Generics => in_generic_map(alloc, design, interfaces, own, parts),
        Row::Operands => {
            let function = function_named(interfaces, node);
            passed_to(alloc, design, interfaces, function, parts)
        }
        _ => Ok(Vec::new(alloc)),
    }
}

/// Whether an indication with these parts has bounds.
fn is_bounded_indication(
    design: &mut KnownDesign<'_, '_>,
    alloc: Global,
    parts: &Cursor<'_, Resolved>,
) -> Result<bool, AllocError>
    requires ready { IsReady design.old }
    ensures bounded { (d : Design) (k : Known) (ks : List Known) → Knows d design.old (k ∷ ks)
        → IfOk result (λ b. b ≡ is_bounded_indicated (indicated d false k parts.now)) }
    ensures knows { (d : Design) (ks : List Known) → Knows d design.old ks → OnOk result (Knows d design.new ks) }
{
    let of = indicated_twice(design, alloc, parts)?;
    Ok(has_bounds(&design.table.subtypes.store().cursor(of.own)))
}

/// Whether elements in brackets have bounds from their place. One element without choices stands where its brackets stand.
fn are_bounded(elements: &Cursor<'_, Resolved>, brackets_are: bool) -> bool
    ensures { (t : Table) → result ≡ (if are_one_element (meanings t elements.now) then brackets_are else true) }
{
    !is_one_element(elements) || brackets_are
}

/// A constant with its value.
fn of_constant(
    design: &mut KnownDesign<'_, '_>,
    alloc: Global,
    parts: &Cursor<'_, Resolved>,
) -> Result<Vec<Standing>, AllocError>
    requires ready { IsReady design.old }
    ensures standings { (d : Design) (s : State) (n : Node) (ks : List Known) → Knows d design.old (s.known ∷ ks)
        → IfOk result (λ xs. standings_in d xs.items ≡ bounded_by row_kind.ConstantValue d s n parts.now) }
    ensures knows { (d : Design) (ks : List Known) → Knows d design.old ks → OnOk result (Knows d design.new ks) }
{
    let is_bounded = is_bounded_indication(design, alloc, &parts.skip(1).parts())?;
    Vec::from_slice(alloc, &[READ, READ, Standing::Evaluated { is_bounded }])
}

/// A generic constant with its default.
fn of_generic(
    design: &mut KnownDesign<'_, '_>,
    alloc: Global,
    parts: &Cursor<'_, Resolved>,
) -> Result<Vec<Standing>, AllocError>
    requires ready { IsReady design.old }
    ensures standings { (d : Design) (s : State) (n : Node) (ks : List Known) → Knows d design.old (s.known ∷ ks)
        → IfOk result (λ xs. standings_in d xs.items ≡ bounded_by row_kind.GenericDefault d s n parts.now) }
    ensures knows { (d : Design) (ks : List Known) → Knows d design.old ks → OnOk result (Knows d design.new ks) }
{
    let is_bounded = is_bounded_indication(design, alloc, &parts.skip(3).parts())?;
    Vec::from_slice(
        alloc,
        &[READ, READ, READ, READ, Standing::Copied { is_bounded }],
    )
}

/// An expression alone, whose place gives bounds or doesn't.
fn evaluated(alloc: Global, is_bounded: bool) -> Result<Vec<Standing>, AllocError>
    ensures { (d : Design) → IfOk result (λ xs. standings_in d xs.items ≡ one_evaluated is_bounded) }
{
    Vec::from_slice(alloc, &[Standing::Evaluated { is_bounded }])
}

/// Whether the result of the function round a place has bounds.
fn is_result_bounded(design: &KnownDesign<'_, '_>) -> bool
    requires ready { IsReady design.now }
    ensures { (d : Design) (k : Known) (ks : List Known) → Knows d design.now (k ∷ ks) → result ≡ subtype_has_bounds k.env.result }
{
    let subtype = design.table.result_subtype();
    has_bounds(&design.table.subtypes.store().cursor(subtype))
}

/// Rows that hang on bounds of what is known.
fn bounded(
    design: &mut KnownDesign<'_, '_>,
    alloc: Global,
    row: Row,
    own: Standing,
    node: &Resolved,
    parts: &Cursor<'_, Resolved>,
) -> Result<Vec<Standing>, AllocError>
    requires ready { IsReady design.old }
    ensures standings { (d : Design) (s : State) (ks : List Known) → Knows d design.old (s.known ∷ ks) → standing s ≡ standing_of d own
        → IfOk result (λ xs. standings_in d xs.items ≡ bounded_by row d s node.now parts.now) }
    ensures knows { (d : Design) (ks : List Known) → Knows d design.old ks → OnOk result (Knows d design.new ks) }
{
    match row {
        Row::ConstantValue => of_constant(design, alloc, parts),
        Row::GenericDefault => of_generic(design, alloc, parts),
        Row::Returned => evaluated(alloc, is_result_bounded(design)),
        Row::Elements => evaluated(alloc, are_bounded(parts, is_bounded(own))),
        Row::Qualified => {
            let mark = DeclId::of(number_or(node.declaration));
            evaluated(alloc, are_bounded(parts, is_bounded_object(design, mark)))
        }
        _ => Ok(Vec::new(alloc)),
    }
}

/// What the parts of a node are to it, which is itself this to the node above it.
pub fn standings_of(
    design: &mut KnownDesign<'_, '_>,
    interfaces: &Interfaces<'_>,
    alloc: Global,
    own: Standing,
    node: &Resolved,
    parts: &Cursor<'_, Resolved>,
) -> Result<Vec<Standing>, AllocError>
    requires ready { IsReady design.old }
    ensures standings { (s : State) (ks : List Known) → Knows (design_in interfaces.now) design.old (s.known ∷ ks)
        → standing s ≡ standing_of (design_in interfaces.now) own → IfOk result (λ xs. standings_in (design_in interfaces.now) xs.items
        ≡ standings node.now.form (design_in interfaces.now) s node.now parts.now) }
    ensures knows { (d : Design) (ks : List Known) → Knows d design.old ks → OnOk result (Knows d design.new ks) }
{
    let row = row_of(node.form);
    match sort_of(row) {
        Sort::Bounded => bounded(design, alloc, row, own, node, parts),
        Sort::Passed => passed_by(alloc, design, interfaces, row, own, node, parts),
        Sort::Mapped => mapped(alloc, row, parts),
        Sort::Fixed => fixed(alloc, row, own),
    }
}
