//! Trees, from the leaves on.

ghost use Rattle.std.specs.Prelude.{◌≡◌, IfOk, List};
ghost use Rattle.std.specs.List.{All};
ghost use Rattle.vd_static_names.specs.Jumps.{AreJumps};
ghost use Rattle.vd_meaning.specs.Meanings.{meanings};
ghost use Rattle.vd_meaning.specs.Tables.{Table};
ghost use Rattle.vd_known_lengths.specs.Extents.{AreMeasured, AreTreesMeasured, CanSee, IsMeasuredAs, IsMeasuredHere, IsMeasuredWithin, IsTreeMeasured};
ghost use Rattle.vd_known_lengths.specs.Kinds.{read_kind};
ghost use Rattle.vd_value_rules.specs.Designs.{Design};
ghost use Rattle.vd_value_rules.specs.Lengths.{AnAttribute, AName, Joining, OfOperand, Shaping, SomeArguments, SomeBrackets, array_operand, calls_written as written_is_called};
ghost use Rattle.vd_static_values.specs.Entries.{table_of};

use crate::arguments::{arguments, attribute};
use crate::declared::{called, declared, first_of_name, number_or, selected, typed};
use crate::kinds::{Kind, is_operator, kind_of};
use crate::lengths::{joined, sum};
use crate::names::{length_of, part, whole_name};
use crate::operands::{is_one_element, mark_of, same_type};
use crate::over::Over;
use crate::pieces::{Measured, alone, no_measure, piece_alone};
use std::alloc::{AllocError, Global};
use std::mem;
use vd_forest::{Cursor, Opened, Store};
use vd_operations::tables::{followed, is_predefined};
use vd_resolved::Resolved;
use vd_static_names::FieldTable;
use vd_value_rules::IndicatedForm;
use vd_walks::{FromLeaves, from_leaves};

/// A concatenation.
fn joining(
    over: &Over<'_, '_>,
    tree: &Opened<'_, Resolved>,
    parts: &[Measured],
) -> Result<Measured, AllocError>
    requires sees { CanSee over.now }
    ensures within { IfOk result (IsMeasuredWithin over.now.ground.subtypes.now) }
    ensures is { IfOk result (IsMeasuredAs Joining over.now tree.now.form tree.now.text.now tree.now.parts parts.now) }
{
    let subtypes = over.ground.subtypes;
    let behind = tree.parts.skip(1);
    let first_mark = mark_of(&tree.parts);
    let second_mark = mark_of(&behind);
    let first = length_of(subtypes, parts, 0);
    let second = length_of(subtypes, parts, 1);
    let left = joined(tree.form.mark, first_mark, first);
    let right = joined(tree.form.mark, second_mark, second);
    let length = sum(left, right)?;
    Ok(alone(subtypes, typed(over, tree.form.mark, length)))
}

/// The length of the array operand of a logical operator, `not` or a shift.
fn operand_length(
    subtypes: &Store<IndicatedForm>,
    tree: &Opened<'_, Resolved>,
    parts: &[Measured],
) -> Option<u128>
    ensures { (t : Table) (ss : List Shaping) → AreMeasured subtypes.now parts.now ss
        → array_operand tree.now.form (meanings t tree.now.parts) ss ≡ result }
{
    let mark = mark_of(&tree.parts);
    if same_type(mark, tree.form.mark) {
        length_of(subtypes, parts, 0)
    } else {
        length_of(subtypes, parts, 1)
    }
}

/// A logical operator, `not` or a shift.
fn of_operand(over: &Over<'_, '_>, tree: &Opened<'_, Resolved>, parts: &[Measured]) -> Measured
    requires sees { CanSee over.now }
    ensures within { IsMeasuredWithin over.now.ground.subtypes.now result }
    ensures is { IsMeasuredAs OfOperand over.now tree.now.form tree.now.text.now tree.now.parts parts.now result }
{
    let subtypes = over.ground.subtypes;
    let length = operand_length(subtypes, tree, parts);
    alone(subtypes, typed(over, tree.form.mark, length))
}

/// A list in brackets that is no piece of a name.
fn brackets(over: &Over<'_, '_>, tree: &Opened<'_, Resolved>, parts: &[Measured]) -> Measured
    requires sees { CanSee over.now }
    requires parts_in { All (IsMeasuredWithin over.now.ground.subtypes.now) parts.now }
    ensures within { IsMeasuredWithin over.now.ground.subtypes.now result }
    ensures is { IsMeasuredAs SomeBrackets over.now tree.now.form tree.now.text.now tree.now.parts parts.now result }
{
    let subtypes = over.ground.subtypes;
    if is_one_element(&tree.parts) {
        part(subtypes, parts, 0)
    } else {
        alone(subtypes, typed(over, tree.form.mark, None))
    }
}

/// A name.
fn name(
    over: &Over<'_, '_>,
    fields: &mut FieldTable,
    tree: &Opened<'_, Resolved>,
    parts: &[Measured],
) -> Result<Measured, AllocError>
    requires fields { AreJumps fields.old.jumps.items over.now.ground.subtypes.now }
    requires parts_in { All (IsMeasuredWithin over.now.ground.subtypes.now) parts.now }
    ensures within { IfOk result (IsMeasuredWithin over.now.ground.subtypes.now) }
    ensures is { IfOk result (IsMeasuredAs AName over.now tree.now.form tree.now.text.now tree.now.parts parts.now) }
    ensures fields { AreJumps fields.new.jumps.items over.now.ground.subtypes.now }
{
    let subtypes = over.ground.subtypes;
    let extent = whole_name(subtypes, fields, parts)?;
    Ok(alone(subtypes, extent))
}

/// A list in brackets behind a name.
fn behind_name(
    alloc: Global,
    over: &Over<'_, '_>,
    fields: &mut FieldTable,
    tree: &Opened<'_, Resolved>,
    parts: &[Measured],
) -> Result<Measured, AllocError>
    requires sees { CanSee over.now }
    requires fields { AreJumps fields.old.jumps.items over.now.ground.subtypes.now }
    ensures within { IfOk result (IsMeasuredWithin over.now.ground.subtypes.now) }
    ensures is { IfOk result (IsMeasuredAs SomeArguments over.now tree.now.form tree.now.text.now tree.now.parts parts.now) }
    ensures fields { AreJumps fields.new.jumps.items over.now.ground.subtypes.now }
{
    let subtypes = over.ground.subtypes;
    let length = length_of(subtypes, parts, 0);
    let piece = arguments(alloc, over, fields, tree.form, &tree.parts, length)?;
    Ok(piece_alone(subtypes, piece))
}

/// An attribute.
fn with_attribute(
    alloc: Global,
    over: &Over<'_, '_>,
    fields: &mut FieldTable,
    tree: &Opened<'_, Resolved>,
    parts: &[Measured],
) -> Result<Measured, AllocError>
    requires sees { CanSee over.now }
    requires fields { AreJumps fields.old.jumps.items over.now.ground.subtypes.now }
    ensures within { IfOk result (IsMeasuredWithin over.now.ground.subtypes.now) }
    ensures is { IfOk result (IsMeasuredAs AnAttribute over.now tree.now.form tree.now.text.now tree.now.parts parts.now) }
    ensures fields { AreJumps fields.new.jumps.items over.now.ground.subtypes.now }
{
    let extent = attribute(alloc, over, fields, tree.form, &tree.parts)?;
    Ok(alone(over.ground.subtypes, extent))
}

/// A tree of a kind.
fn measured_as(
    kind: Kind,
    alloc: Global,
    over: &Over<'_, '_>,
    fields: &mut FieldTable,
    tree: &Opened<'_, Resolved>,
    parts: &[Measured],
) -> Result<Measured, AllocError>
    requires sees { CanSee over.now }
    requires fields { AreJumps fields.old.jumps.items over.now.ground.subtypes.now }
    requires parts_in { All (IsMeasuredWithin over.now.ground.subtypes.now) parts.now }
    ensures within { IfOk result (IsMeasuredWithin over.now.ground.subtypes.now) }
    ensures is { IfOk result (IsMeasuredAs (read_kind kind) over.now tree.now.form tree.now.text.now tree.now.parts parts.now) }
    ensures fields { AreJumps fields.new.jumps.items over.now.ground.subtypes.now }
{
    let subtypes = over.ground.subtypes;
    let mark = tree.form.mark;
    match kind {
        Kind::Literal => Ok(alone(subtypes, typed(over, mark, Some(tree.text.len() as u128)))),
        Kind::Name => name(over, fields, tree, parts),
        Kind::FirstPiece => Ok(alone(subtypes, first_of_name(over, tree.form))),
        Kind::Selection => Ok(piece_alone(subtypes, selected(over, tree.form))),
        Kind::Arguments => behind_name(alloc, over, fields, tree, parts),
        Kind::Attribute => with_attribute(alloc, over, fields, tree, parts),
        Kind::Qualification => Ok(alone(subtypes, declared(over, tree.form.declaration))),
        Kind::Joining => joining(over, tree, parts),
        Kind::OfOperand => Ok(of_operand(over, tree, parts)),
        Kind::Brackets => Ok(brackets(over, tree, parts)),
        Kind::Other => Ok(alone(subtypes, typed(over, mark, None))),
    }
}

/// Whether it is an operator that is written.
fn calls_written(over: &Over<'_, '_>, node: Resolved) -> bool
    ensures { (d : Design) → d.table ≡ table_of over.now.ground → result ≡ written_is_called d node }
{
    let declarations = over.ground.declarations;
    let function = followed(declarations, number_or(node.declaration));
    is_operator(node.form)
        && (node.declaration.is_some()
            && !is_predefined(over.ground.revision, declarations, function))
}

/// A tree.
fn measured(
    alloc: Global,
    over: &Over<'_, '_>,
    fields: &mut FieldTable,
    tree: &Opened<'_, Resolved>,
    parts: &[Measured],
) -> Result<Measured, AllocError>
    requires sees { CanSee over.now }
    requires fields { AreJumps fields.old.jumps.items over.now.ground.subtypes.now }
    requires parts_in { All (IsMeasuredWithin over.now.ground.subtypes.now) parts.now }
    ensures within { IfOk result (IsMeasuredWithin over.now.ground.subtypes.now) }
    ensures is { IfOk result (IsMeasuredHere over.now tree.now.form tree.now.text.now tree.now.parts parts.now) }
    ensures fields { AreJumps fields.new.jumps.items over.now.ground.subtypes.now }
{
    if calls_written(over, tree.form) {
        Ok(alone(over.ground.subtypes, called(over, tree.form.declaration)))
    } else {
        measured_as(kind_of(tree.form.form), alloc, over, fields, tree, parts)
    }
}

/// What trees are measured over.
#[derive(Drop)]
struct Measuring<'d, 'a> {
    over: Over<'d, 'a>,
    fields: FieldTable,
}

impl<'t, 'd, 'a> FromLeaves<'t, Resolved, Measured> for Measuring<'d, 'a> {
    ghost use Rattle.vd_static_names.specs.Jumps.{AreJumps};
    ghost use Rattle.vd_known_lengths.specs.Extents.{CanSee, IsMeasuredWithin, IsTreeMeasured};
    ghost use Rattle.vd_known_lengths.specs.declared.over.Over.{Over};

    ghost is_ready = { λ by. CanSee by.over × AreJumps by.fields.jumps.items by.over.ground.subtypes.now };

    ghost is_sound = { λ by. IsMeasuredWithin by.over.ground.subtypes.now };

    ghost Frame = { Over };

    ghost frame = { λ by. by.over };

    ghost comes_to = { λ by. IsTreeMeasured by.over };

    fn tree(
        &mut self,
        alloc: Global,
        tree: &Opened<'t, Resolved>,
        parts: &[Measured],
    ) -> Result<Measured, AllocError> {
        measured(alloc, &self.over, &mut self.fields, tree, parts)
    }
}

/// The trees of a forest. What was found of the fields of records is kept for later calls.
fn measured_trees(
    alloc: Global,
    over: &Over<'_, '_>,
    fields: &mut FieldTable,
    trees: &Cursor<'_, Resolved>,
) -> Result<Vec<Measured>, AllocError>
    requires sees { CanSee over.now }
    requires fields { AreJumps fields.old.jumps.items over.now.ground.subtypes.now }
    ensures within { IfOk result (λ made. All (IsMeasuredWithin over.now.ground.subtypes.now) made.items) }
    ensures are { IfOk result (λ made. AreTreesMeasured over.now trees.now made.items) }
    ensures fields { AreJumps fields.new.jumps.items over.now.ground.subtypes.now }
{
    let mut measuring = Measuring {
        over: *over,
        fields: mem::replace(fields, FieldTable::new(alloc)),
    };
    let made = from_leaves(alloc, trees, &mut measuring);
    *fields = measuring.fields;
    made
}

/// The first tree of a forest.
pub(crate) fn measured_tree(
    alloc: Global,
    over: &Over<'_, '_>,
    fields: &mut FieldTable,
    tree: &Cursor<'_, Resolved>,
) -> Result<Measured, AllocError>
    requires sees { CanSee over.now }
    requires fields { AreJumps fields.old.jumps.items over.now.ground.subtypes.now }
    ensures within { IfOk result (IsMeasuredWithin over.now.ground.subtypes.now) }
    ensures is { IfOk result (IsTreeMeasured over.now tree.now) }
    ensures fields { AreJumps fields.new.jumps.items over.now.ground.subtypes.now }
{
    let Some(first) = tree.open() else {
        return Ok(no_measure(over.ground.subtypes));
    };
    let parts = measured_trees(alloc, over, fields, &first.parts)?;
    measured(alloc, over, fields, &first, &parts)
}
