//! Further pieces of names, and ranges. (IEEE 1076, names: selected, indexed and slice names; type conversions; qualified expressions; ranges.)

ghost use Rattle.std.specs.Prelude.{◌≡◌, IfOk, List};
ghost use Rattle.vd_meaning.specs.Kinds;
ghost use Rattle.vd_meaning.specs.Tables.{role_of, table};
ghost use Rattle.vd_evaluator.specs.declared.senses.Sense.{Sense as NodeSense};
ghost use Rattle.vd_evaluator.specs.Pieces.{converted_by, caller_of, declared_what, index_of as index_is, index_what, limits_what, operand_what, slice_read, to_limit as limit_is};
ghost use Rattle.vd_evaluator.specs.Outlines.{is_element};
ghost use Rattle.vd_evaluator.specs.Senses.{IsNode};

use crate::pieces::position_found;
use crate::senses::{Name, Part, Piece, Sense, What};
use crate::words::{first_name, number_of};
use std::alloc::{AllocError, Global};
use vd_composites::{Bounds, Value};
use vd_declarations::{Class, Declaration};
use vd_operations::tables::class_of;
use vd_plain_values::Entry;
use vd_plain_values::answers::settled;
use vd_plain_values::environment::mark_head;
use vd_resolved::Resolved;
use vd_subtypes::{SubtypeHead, fit};
use vd_trees::Revision;
use vd_values::StopKind;

/// Whether a node names a record element.
fn names_element(revision: Revision, declarations: &[Declaration], node: &Resolved) -> bool
    ensures { result ≡ is_element (role_of (table revision declarations.now) node.now.declaration) }
{
    match &node.declaration {
        Some(declaration) => matches!(
            class_of(declarations, declaration.number()),
            Class::RecordElement
        ),
        None => false,
    }
}

/// An index or a slice.
fn index_of(what: &What) -> Result<What, AllocError>
    ensures { IfOk result (λ w. w ≡ index_is what.now) }
{
    match what {
        What::Expression(found) => match position_found(found)? {
            Ok(index) => Ok(What::Piece(Piece::Step(Ok(Part::Index(index))))),
            Err(kind) => Ok(What::Piece(Piece::Step(Err(kind)))),
        },
        What::Range(Ok(range)) => Ok(What::Piece(Piece::Step(Ok(Part::Slice(*range))))),
        What::Range(Err(kind)) => Ok(What::Piece(Piece::Step(Err(*kind)))),
        What::NotTaken => Ok(What::NotTaken),
        What::Word(_) => Ok(What::NotTaken),
        What::Textual => Ok(What::NotTaken),
        What::Piece(_) => Ok(What::NotTaken),
    }
}

/// An index or a slice, alone in its brackets.
fn index(parts: &[Sense<'_>]) -> Result<What, AllocError>
    ensures { IfOk result (λ w. w ≡ index_what parts.now) }
{
    match parts {
        [only] => index_of(&only.what),
        _ => Ok(What::NotTaken),
    }
}

/// What may have stopped, made one of a subtype.
fn convert(
    alloc: Global,
    head: SubtypeHead,
    found: &Result<Value, StopKind>,
) -> Result<Result<Value, StopKind>, AllocError>
    ensures { IfOk result (λ r. r ≡ converted_by head found.now) }
{
    match found {
        Ok(value) => settled(fit(alloc, head, value)),
        Err(kind) => Ok(Err(*kind)),
    }
}

/// A qualified expression.
fn operand(alloc: Global, head: SubtypeHead, parts: &[Sense<'_>]) -> Result<What, AllocError>
    ensures { IfOk result (λ w. w ≡ operand_what head parts.now) }
{
    match parts {
        [only] => match &only.what {
            What::Expression(found) => {
                let made = convert(alloc, head, found)?;
                Ok(What::Piece(Piece::Own(made)))
            }
            _ => Ok(What::NotTaken),
        },
        _ => Ok(What::NotTaken),
    }
}

/// A range from one limit to another.
fn limits_from(down: bool, left: &Result<Value, StopKind>, right: &What) -> Result<What, AllocError>
    ensures { IfOk result (λ w. w ≡ limit_is down left.now right.now) }
{
    let What::Expression(right) = right else {
        return Ok(What::NotTaken);
    };
    match position_found(left)? {
        Err(kind) => Ok(What::Range(Err(kind))),
        Ok(left) => match position_found(right)? {
            Err(kind) => Ok(What::Range(Err(kind))),
            Ok(right) => Ok(What::Range(Ok(Bounds { left, right, down }))),
        },
    }
}

/// A range.
fn limits(down: bool, parts: &[Sense<'_>]) -> Result<What, AllocError>
    ensures { IfOk result (λ w. w ≡ limits_what down parts.now) }
{
    match parts {
        [left, right] => match &left.what {
            What::Expression(found) => limits_from(down, found, &right.what),
            _ => Ok(What::NotTaken),
        },
        _ => Ok(What::NotTaken),
    }
}

/// A declaration that is selected.
fn declared(name: Name) -> What
    ensures { result ≡ declared_what name }
{
    match name {
        Name::Valued(found) => What::Piece(Piece::Own(found)),
        Name::Called => What::NotTaken,
        Name::Unnamed => What::NotTaken,
    }
}

/// A record element, or a declaration that is selected.
pub(crate) fn selection<'a>(
    alloc: Global,
    revision: Revision,
    declarations: &[Declaration],
    environment: &[Entry<'_>],
    node: Resolved,
    text: &'a [u8],
) -> Result<Sense<'a>, AllocError>
    ensures { IfOk result (λ s. (parts : List NodeSense) → IsNode (table revision declarations.now) environment.now Kinds.SelectionPiece node text.now parts s) }
{
    if names_element(revision, declarations, &node) {
        let position = node.position;
        return Ok(Sense {
            text,
            what: What::Piece(Piece::Step(Ok(Part::Field(position)))),
        });
    }
    let name = first_name(alloc, revision, declarations, environment, node)?;
    Ok(Sense {
        text,
        what: declared(name),
    })
}

/// What a declaration is in front of a list in brackets.
#[derive(Clone, Copy)]
pub enum Caller {
    /// A function or a mark, so that the list makes a call or a conversion.
    Called,
    /// Anything else, so that it is an index or a slice.
    Other,
}

/// What the declaration of a node is in front of a list in brackets.
fn calling(revision: Revision, declarations: &[Declaration], node: &Resolved) -> Caller
    ensures { result ≡ caller_of (role_of (table revision declarations.now) node.now.declaration) }
{
    let Some(declaration) = &node.declaration else {
        return Caller::Other;
    };
    match class_of(declarations, declaration.number()) {
        Class::Function
        | Class::GenericFunction
        | Class::InstanceFunction
        | Class::ActualFunction { .. }
        | Class::PredefinedOperator
        | Class::EnumerationType
        | Class::IntegerType
        | Class::PhysicalType
        | Class::ArrayType { .. }
        | Class::RecordType
        | Class::GenericType
        | Class::Subtype { .. } => Caller::Called,
        _ => Caller::Other,
    }
}

/// A list in brackets behind a name.
pub(crate) fn arguments<'a>(
    revision: Revision,
    declarations: &[Declaration],
    environment: &[Entry<'_>],
    node: Resolved,
    text: &'a [u8],
    parts: &[Sense<'a>],
) -> Result<Sense<'a>, AllocError>
    ensures { IfOk result (λ s. IsNode (table revision declarations.now) environment.now Kinds.ArgumentsPiece node text.now parts.now s) }
{
    match calling(revision, declarations, &node) {
        Caller::Called => Ok(Sense {
            text,
            what: What::NotTaken,
        }),
        Caller::Other => {
            let what = index(parts)?;
            Ok(Sense { text, what })
        }
    }
}

/// A qualified expression.
pub(crate) fn qualification<'a>(
    alloc: Global,
    revision: Revision,
    declarations: &[Declaration],
    environment: &[Entry<'_>],
    node: Resolved,
    text: &'a [u8],
    parts: &[Sense<'a>],
) -> Result<Sense<'a>, AllocError>
    ensures { IfOk result (λ s. IsNode (table revision declarations.now) environment.now Kinds.QualificationPiece node text.now parts.now s) }
{
    let head = mark_head(environment, number_of(&node))?;
    let what = operand(alloc, head, parts)?;
    Ok(Sense { text, what })
}

/// A range.
pub(crate) fn range<'a>(
    down: bool,
    revision: Revision,
    declarations: &[Declaration],
    environment: &[Entry<'_>],
    node: Resolved,
    text: &'a [u8],
    parts: &[Sense<'a>],
) -> Result<Sense<'a>, AllocError>
    ensures { IfOk result (λ s. IsNode (table revision declarations.now) environment.now (Kinds.Limits down) node text.now parts.now s) }
{
    let what = limits(down, parts)?;
    Ok(Sense { text, what })
}
