//! Operands and selectors of constrained array types.

ghost use Rattle.std.specs.Prelude.{◌≡◌, ◌∷◌, IfOk, List};
ghost use Rattle.vd_bound_rules.specs.Sorts.{called_as, operands_as};
ghost use Rattle.vd_bound_rules.specs.declared.sorts.Operands.TheVariants.{InBrackets};
ghost use Rattle.vd_operations.specs.Roles.{read_role};
ghost use Rattle.vd_forest.specs.Forest.{more, nothing};
ghost use Rattle.vd_known_designs.specs.Designs.{IsReady, Knows};
ghost use Rattle.vd_walks.specs.Least.{least_of};
ghost use Rattle.vd_meaning.specs.Names.{number_or as number_of};
ghost use Rattle.vd_meaning.specs.Tables.{is_brought as brought, role_of as role_in, table};
ghost use Rattle.vd_trees.specs.declared.revision.Revision.{Revision};
ghost use Rattle.vd_value_rules.specs.Bounds.{argument_of as argument_in, indefinite, indefinite_arguments as arguments_indefinite, is_operator_called as calls_operator, operands_of as operands_refused};
ghost use Rattle.vd_value_rules.specs.Designs.{Design};
ghost use Rattle.vd_value_rules.specs.Knowledge.{Known};
ghost use Rattle.vd_value_rules.specs.Standings.{State};

use crate::sorts::{Operands, operands_of};
use crate::written::is_indefinite;
use std::alloc::{AllocError, Global};
use vd_bytes::Refused;
use vd_declarations::{Class, DeclId, Declaration};
use vd_forest::{Cursor, Opened};
use vd_forms::Form;
use vd_known_designs::KnownDesign;
use vd_operations::tables::followed;
use vd_operations::{Role, class_of, role_of};
use vd_resolved::Resolved;
use vd_value_rules::refused_if;
use vd_walks::lesser;

/// The first tree as an operand.
fn one_operand(
    design: &mut KnownDesign<'_, '_>,
    alloc: Global,
    tree: &Cursor<'_, Resolved>,
) -> Result<Option<Refused>, AllocError>
    requires ready { IsReady design.old }
    ensures is { (d : Design) (s : State) (ks : List Known) → Knows d design.old (s.known ∷ ks)
        → IfOk result (λ found. found ≡ least_of (indefinite 1 d s tree.now)) }
    ensures knows { (d : Design) (ks : List Known) → Knows d design.old ks → Knows d design.new ks }
{
    let Some(first) = tree.open() else {
        return Ok(None);
    };
    let refused = is_indefinite(design, alloc, tree, &first)?;
    Ok(refused_if(refused, first.place, 410))
}

/// The first two trees as operands.
fn two_operands(
    design: &mut KnownDesign<'_, '_>,
    alloc: Global,
    trees: &Cursor<'_, Resolved>,
) -> Result<Option<Refused>, AllocError>
    requires ready { IsReady design.old }
    ensures is { (d : Design) (s : State) (ks : List Known) → Knows d design.old (s.known ∷ ks)
        → IfOk result (λ found. found ≡ least_of (indefinite 2 d s trees.now)) }
    ensures knows { (d : Design) (ks : List Known) → Knows d design.old ks → Knows d design.new ks }
{
    let first = one_operand(design, alloc, trees)?;
    let second = one_operand(design, alloc, &trees.next())?;
    Ok(lesser(first, second))
}

/// An argument of a call, which stands alone or behind `=>`.
fn argument_of<'a>(
    tree: &Cursor<'a, Resolved>,
    first: &Opened<'a, Resolved>,
) -> Cursor<'a, Resolved>
    ensures { result ≡ argument_in first.now.form.form tree.now first.now.parts }
{
    match first.form.form {
        Form::Association => first.parts.skip(1),
        _ => tree.fork(),
    }
}

/// The arguments of a call of an operator.
fn arguments(
    design: &mut KnownDesign<'_, '_>,
    alloc: Global,
    trees: &Cursor<'_, Resolved>,
) -> Result<Option<Refused>, AllocError>
    requires ready { IsReady design.old }
    ensures is { (d : Design) (s : State) (ks : List Known) → Knows d design.old (s.known ∷ ks)
        → IfOk result (λ found. found ≡ least_of (arguments_indefinite d s trees.now)) }
    ensures knows { (d : Design) (ks : List Known) → Knows d design.old ks → Knows d design.new ks }
{
    let mut found = None;
    let mut rest = trees.fork();
    while let Some(first) = rest.open() {
        let argument = argument_of(&rest, &first);
        let refused = one_operand(design, alloc, &argument)?;
        found = lesser(found, refused);
        rest = first.next;
    }
    Ok(found)
}

/// The number of a declaration, or 0.
fn number_or(declaration: Option<DeclId>) -> u32
    ensures { result ≡ number_of declaration }
{
    match declaration {
        Some(declaration) => declaration.number(),
        None => 0,
    }
}

/// Whether a declaration is an operator that a type brings with it.
fn is_brought(class: Class) -> bool
    ensures { result ≡ brought class }
{
    matches!(class, Class::PredefinedOperator)
}

/// Whether what has this role and is brought or isn't is an operator that is called.
fn called_by(role: Role, is_brought: bool) -> bool
    ensures { result ≡ called_as (read_role role) is_brought }
{
    match role {
        Role::Function => is_brought,
        _ => false,
    }
}

/// Whether a list in brackets has the operands of an operator.
fn is_operator_called(declarations: &[Declaration], node: Resolved) -> bool
    ensures { (d : Design) (revision : Revision) → d.table ≡ table revision declarations.now
        → result ≡ calls_operator (role_in d.table node.declaration) d (number_of node.declaration) }
{
    let number = followed(declarations, number_or(node.declaration));
    let role = role_of(declarations, node.declaration);
    called_by(role, is_brought(class_of(declarations, number)))
}

/// The operands of a call in brackets.
fn in_brackets(
    design: &mut KnownDesign<'_, '_>,
    alloc: Global,
    node: &Opened<'_, Resolved>,
) -> Result<Option<Refused>, AllocError>
    requires ready { IsReady design.old }
    ensures is { (d : Design) (s : State) (ks : List Known) → Knows d design.old (s.known ∷ ks)
        → IfOk result (λ found. found ≡ least_of (operands_as InBrackets d s node.now.form node.now.parts)) }
    ensures knows { (d : Design) (ks : List Known) → Knows d design.old ks → Knows d design.new ks }
{
    if is_operator_called(design.declarations, node.form) {
        arguments(design, alloc, &node.parts)
    } else {
        Ok(None)
    }
}

/// Operands of some sort.
fn operands_refused_as(
    sort: Operands,
    design: &mut KnownDesign<'_, '_>,
    alloc: Global,
    node: &Opened<'_, Resolved>,
) -> Result<Option<Refused>, AllocError>
    requires ready { IsReady design.old }
    ensures is { (d : Design) (s : State) (ks : List Known) → Knows d design.old (s.known ∷ ks)
        → IfOk result (λ found. found ≡ least_of (operands_as sort d s node.now.form node.now.parts)) }
    ensures knows { (d : Design) (ks : List Known) → Knows d design.old ks → Knows d design.new ks }
{
    match sort {
        Operands::FirstPart => one_operand(design, alloc, &node.parts),
        Operands::SecondPart => one_operand(design, alloc, &node.parts.skip(1)),
        Operands::TwoParts => two_operands(design, alloc, &node.parts),
        Operands::InBrackets => in_brackets(design, alloc, node),
        Operands::NoPart => Ok(None),
    }
}

/// 410 of operands and selectors.
pub(crate) fn operand_refusal(
    design: &mut KnownDesign<'_, '_>,
    alloc: Global,
    node: &Opened<'_, Resolved>,
) -> Result<Option<Refused>, AllocError>
    requires ready { IsReady design.old }
    ensures is { (d : Design) (s : State) (ks : List Known) → Knows d design.old (s.known ∷ ks)
        → IfOk result (λ found. found ≡ least_of (operands_refused node.now.form.form d s node.now.form node.now.parts)) }
    ensures knows { (d : Design) (ks : List Known) → Knows d design.old ks → Knows d design.new ks }
{
    operands_refused_as(operands_of(node.form.form), design, alloc, node)
}
