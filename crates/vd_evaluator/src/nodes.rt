//! Nodes evaluated from their parts.

ghost use Rattle.std.specs.Prelude.{◌≡◌, IfOk};
ghost use Rattle.vd_meaning.specs.Kinds;
ghost use Rattle.vd_meaning.specs.Tables.{table};
ghost use Rattle.vd_evaluator.specs.Operands.{AreValues, IsOnly};
ghost use Rattle.vd_evaluator.specs.Senses.{IsNode, finished_what};

use crate::kinds::{TakenKind, kind_of};
use crate::names::{arguments, qualification, range, selection};
use crate::pieces::named;
use crate::senses::{Name, Sense, What};
use crate::words::{character, integer, number_of, physical, quoted, word};
use std::alloc::{AllocError, Global};
use vd_composites::Value;
use vd_declarations::Declaration;
use vd_operations::operation_of;
use vd_operations::tables::{followed, is_predefined, mark_of};
use vd_plain_values::Entry;
use vd_plain_values::answers::again;
use vd_plain_values::operators::operate;
use vd_resolved::Resolved;
use vd_trees::Revision;
use vd_values::StopKind;

/// What a name is with all its pieces.
fn finished(name: Name) -> What
    ensures { result ≡ finished_what name }
{
    match name {
        Name::Valued(found) => What::Expression(found),
        Name::Called => What::NotTaken,
        Name::Unnamed => What::NotTaken,
    }
}

/// A name.
fn whole_name<'a>(
    alloc: Global,
    revision: Revision,
    declarations: &[Declaration],
    environment: &[Entry<'_>],
    node: Resolved,
    text: &'a [u8],
    parts: &[Sense<'a>],
) -> Result<Sense<'a>, AllocError>
    ensures { IfOk result (λ s. IsNode (table revision declarations.now) environment.now Kinds.WholeName node text.now parts.now s) }
{
    let [first, pieces @ ..] = parts else {
        return Ok(Sense {
            text,
            what: What::NotTaken,
        });
    };
    let name = named(alloc, &first.what, pieces)?;
    Ok(Sense {
        text,
        what: finished(name),
    })
}

/// The value of the one part that there is, where it is an expression.
fn only_expression(
    alloc: Global,
    parts: &[Sense<'_>],
) -> Result<Option<Result<Value, StopKind>>, AllocError>
    ensures { IfOk result (λ r. IsOnly r parts.now) }
{
    match parts {
        [only] => match &only.what {
            What::Expression(found) => {
                let copy = again(alloc, found)?;
                Ok(Some(copy))
            }
            _ => Ok(None),
        },
        _ => Ok(None),
    }
}

/// An expression in brackets.
fn brackets<'a>(
    alloc: Global,
    revision: Revision,
    declarations: &[Declaration],
    environment: &[Entry<'_>],
    node: Resolved,
    text: &'a [u8],
    parts: &[Sense<'a>],
) -> Result<Sense<'a>, AllocError>
    ensures { IfOk result (λ s. IsNode (table revision declarations.now) environment.now Kinds.Brackets node text.now parts.now s) }
{
    match only_expression(alloc, parts)? {
        Some(found) => Ok(Sense {
            text,
            what: What::Expression(found),
        }),
        None => Ok(Sense {
            text,
            what: What::NotTaken,
        }),
    }
}

/// The values of parts that are expressions; nothing where one isn't.
fn values_of(
    alloc: Global,
    parts: &[Sense<'_>],
) -> Result<Option<Vec<Result<Value, StopKind>>>, AllocError>
    ensures { IfOk result (λ r. AreValues r parts.now) }
{
    let mut values: Vec<Result<Value, StopKind>> = Vec::new(alloc);
    for part in parts {
        match &part.what {
            What::Expression(found) => {
                let copy = again(alloc, found)?;
                values.push(copy)?;
            }
            What::NotTaken => return Ok(None),
            What::Word(_) => return Ok(None),
            What::Textual => return Ok(None),
            What::Range(_) => return Ok(None),
            What::Piece(_) => return Ok(None),
        }
    }
    Ok(Some(values))
}

/// An operator.
fn operator<'a>(
    alloc: Global,
    revision: Revision,
    declarations: &[Declaration],
    environment: &[Entry<'_>],
    node: Resolved,
    text: &'a [u8],
    parts: &[Sense<'a>],
) -> Result<Sense<'a>, AllocError>
    ensures { IfOk result (λ s. IsNode (table revision declarations.now) environment.now Kinds.Operator node text.now parts.now s) }
{
    let number = followed(declarations, number_of(&node));
    let Some(values) = values_of(alloc, parts)? else {
        return Ok(Sense {
            text,
            what: What::NotTaken,
        });
    };
    if is_predefined(revision, declarations, number) {
        let operation = operation_of(declarations, number);
        let of_result = mark_of(declarations, number);
        let found = operate(alloc, environment, &operation, of_result, &values)?;
        Ok(Sense {
            text,
            what: What::Expression(found),
        })
    } else {
        Ok(Sense {
            text,
            what: What::NotTaken,
        })
    }
}

/// A node.
pub(crate) fn sense<'a>(
    alloc: Global,
    revision: Revision,
    declarations: &[Declaration],
    environment: &[Entry<'_>],
    node: Resolved,
    text: &'a [u8],
    parts: &[Sense<'a>],
) -> Result<Sense<'a>, AllocError>
    ensures { IfOk result (λ s. IsNode (table revision declarations.now) environment.now (Kinds.kind node.form) node text.now parts.now s) }
{
    match kind_of(node.form) {
        TakenKind::Word => word(alloc, revision, declarations, environment, node, text),
        TakenKind::CharacterLiteral => {
            character(alloc, revision, declarations, environment, node, text)
        }
        TakenKind::StringLiteral => {
            quoted(alloc, revision, declarations, environment, node, text)
        }
        TakenKind::NumberLiteral => {
            integer(alloc, revision, declarations, environment, node, text)
        }
        TakenKind::TimeLiteral => {
            physical(
                alloc,
                revision,
                declarations,
                environment,
                node,
                text,
                parts,
            )
        }
        TakenKind::WholeName => {
            whole_name(
                alloc,
                revision,
                declarations,
                environment,
                node,
                text,
                parts,
            )
        }
        TakenKind::Operator => {
            operator(
                alloc,
                revision,
                declarations,
                environment,
                node,
                text,
                parts,
            )
        }
        TakenKind::Brackets => {
            brackets(
                alloc,
                revision,
                declarations,
                environment,
                node,
                text,
                parts,
            )
        }
        TakenKind::SelectionPiece => {
            selection(alloc, revision, declarations, environment, node, text)
        }
        TakenKind::ArgumentsPiece => {
            arguments(revision, declarations, environment, node, text, parts)
        }
        TakenKind::QualificationPiece => {
            qualification(
                alloc,
                revision,
                declarations,
                environment,
                node,
                text,
                parts,
            )
        }
        TakenKind::Ascending => {
            range(
                false,
                revision,
                declarations,
                environment,
                node,
                text,
                parts,
            )
        }
        TakenKind::Descending => {
            range(true, revision, declarations, environment, node, text, parts)
        }
        TakenKind::Other => Ok(Sense {
            text,
            what: What::NotTaken,
        }),
    }
}
