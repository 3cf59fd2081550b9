//! Selectors, and how they are compared with choices.

ghost use Rattle.std.specs.Prelude.{◌≡◌, ◌∷◌, IfOk, List};
ghost use Rattle.vd_choice_rules.specs.SelectingStatements.{comparison_of, is_nothing};
ghost use Rattle.vd_known_designs.specs.Designs.{IsReady, Knows};
ghost use Rattle.vd_meaning.specs.Facets.{nth};
ghost use Rattle.vd_meaning.specs.Meanings.{meanings};
ghost use Rattle.vd_meaning.specs.Statements.{comparison, comparison_by};
ghost use Rattle.vd_meaning.specs.Tables.{table};
ghost use Rattle.vd_operations.specs.Readings.{read_sort};
ghost use Rattle.vd_trees.specs.declared.revision.Revision.{Revision as revisions};
ghost use Rattle.vd_value_rules.specs.Choices.{ends_in_conversion as ends_so, is_conversion_piece, is_mark_role, is_selectable as may_select, is_selectable_form};
ghost use Rattle.vd_value_rules.specs.Designs.{Design, is_2019 as later_revision};
ghost use Rattle.vd_value_rules.specs.Knowledge.{Known};
ghost use Rattle.vd_operations.specs.Roles.{read_role};

use std::alloc::{AllocError, Global};
use vd_declarations::{Declaration, TypeId};
use vd_forest::{Cursor, Opened};
use vd_forms::Form;
use vd_known_designs::KnownDesign;
use vd_known_indications::node;
use vd_operations::{Role, Sort, role_of, sort_of};
use vd_resolved::Resolved;
use vd_static_values::Node;
use vd_trees::Revision;
use vd_vectors::LogicType;

fn is_mark(role: Role) -> bool
    ensures { result ≡ is_mark_role (read_role role) }
{
    matches!(role, Role::Mark)
}

/// Whether a piece of a name is the operand of a conversion.
fn is_conversion(declarations: &[Declaration], piece: &Opened<'_, Resolved>) -> bool
    ensures { (d : Design) (r : revisions) → d.table ≡ table r declarations.now → result ≡ is_conversion_piece d piece.now.form piece.now.form.form }
{
    match piece.form.form {
        Form::Arguments => is_mark(role_of(declarations, piece.form.declaration)),
        _ => false,
    }
}

/// Whether nothing follows a tree.
fn is_last(tree: &Opened<'_, Resolved>) -> bool
    ensures { result ≡ is_nothing tree.now.next }
{
    match tree.next.open() {
        Some(_) => false,
        None => true,
    }
}

/// Whether the last of some pieces of a name is the operand of a conversion.
fn ends_in_conversion(declarations: &[Declaration], pieces: &Cursor<'_, Resolved>) -> bool
    ensures { (d : Design) (r : revisions) → d.table ≡ table r declarations.now → result ≡ ends_so d pieces.now }
{
    let mut rest = pieces.fork();
    while let Some(first) = rest.open() {
        if is_last(&first) {
            return is_conversion(declarations, &first);
        }
        rest = first.next;
    }
    false
}

/// Whether a selector of this form may be one of an array type in 1993.
fn is_selectable_before(declarations: &[Declaration], selector: &Opened<'_, Resolved>) -> bool
    ensures { (d : Design) (r : revisions) → d.table ≡ table r declarations.now
        → result ≡ is_selectable_form selector.now.form.form d selector.now.parts }
{
    match selector.form.form {
        Form::Name => !ends_in_conversion(declarations, &selector.parts),
        Form::OperatorName => true,
        _ => false,
    }
}

fn is_2019(revision: Revision) -> bool
    ensures { result ≡ later_revision revision }
{
    matches!(revision, Revision::V2019)
}

/// Whether a selector may be one of an array type.
pub(crate) fn is_selectable(
    revision: Revision,
    declarations: &[Declaration],
    selector: &Cursor<'_, Resolved>,
) -> bool
    ensures { (d : Design) (r : revisions) → d.revision ≡ revision → d.table ≡ table r declarations.now → result ≡ may_select d selector.now }
{
    let Some(first) = selector.open() else {
        return false;
    };
    if is_2019(revision) {
        return true;
    }
    is_selectable_before(declarations, &first)
}

/// The logical type of the values of a sort.
fn logic_of(sort: Sort) -> Option<LogicType>
    ensures { comparison_of result ≡ comparison_by (read_sort sort) }
{
    match sort {
        Sort::Logic(of) | Sort::Logics(of) => Some(of),
        _ => None,
    }
}

/// The type of a node.
fn mark_in(node: &Node<'_>) -> Option<TypeId>
    ensures { result ≡ node.now.sense.mark }
{
    node.sense.mark
}

/// The type of a selector.
fn mark_of(
    design: &mut KnownDesign<'_, '_>,
    alloc: Global,
    selector: &Cursor<'_, Resolved>,
) -> Result<Option<TypeId>, AllocError>
    requires ready { IsReady design.old }
    ensures mark { (d : Design) (k : Known) (ks : List Known) → Knows d design.old (k ∷ ks)
        → IfOk result (λ mark. (nth 0 (meanings d.table selector.now)).mark ≡ mark) }
    ensures knows { (d : Design) (ks : List Known) → Knows d design.old ks → Knows d design.new ks }
{
    let node = node(design, alloc, selector)?;
    Ok(mark_in(&node))
}

/// The logical type by whose `?=` a selector is compared, where it is.
pub(crate) fn matching_of(
    design: &mut KnownDesign<'_, '_>,
    alloc: Global,
    is_matching: bool,
    selector: &Cursor<'_, Resolved>,
) -> Result<Option<LogicType>, AllocError>
    requires ready { IsReady design.old }
    ensures comparison { (d : Design) (k : Known) (ks : List Known) → Knows d design.old (k ∷ ks)
        → IfOk result (λ of. comparison d.table is_matching (nth 0 (meanings d.table selector.now)) ≡ comparison_of of) }
    ensures knows { (d : Design) (ks : List Known) → Knows d design.old ks → Knows d design.new ks }
{
    if !is_matching {
        return Ok(None);
    }
    let mark = mark_of(design, alloc, selector)?;
    Ok(logic_of(sort_of(design.declarations, mark)))
}
