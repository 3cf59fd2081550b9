//! Words and literals, evaluated. (IEEE 1076, names: simple names; literals.)

ghost use Rattle.std.specs.Prelude.{◌≡◌, IfOk, List};
ghost use Rattle.vd_meaning.specs.Kinds;
ghost use Rattle.vd_meaning.specs.Names.{first_piece, number_or};
ghost use Rattle.vd_meaning.specs.Tables.{role, role_of, table};
ghost use Rattle.vd_environments.specs.Environments.{Env};
ghost use Rattle.vd_plain_values.specs.Plain.{Holds};
ghost use Rattle.vd_evaluator.specs.declared.senses.Sense.{Sense as NodeSense};
ghost use Rattle.vd_evaluator.specs.Outlines.{first_outline};
ghost use Rattle.vd_evaluator.specs.Senses.{IsName, IsNode, called_by, name_outline_of};

use crate::senses::{Name, Sense, What, text_of};
use std::alloc::{AllocError, Global};
use vd_composites::Value;
use vd_declarations::{Class, Declaration};
use vd_operations::tables::class_of;
use vd_plain_values::Entry;
use vd_plain_values::environment::{object_value, signal_value};
use vd_plain_values::literals::{number, time};
use vd_plain_values::strings::string;
use vd_resolved::Resolved;
use vd_trees::Revision;
use vd_values::Scalar;

/// The number of the declaration that a node names.
pub(crate) fn number_of(node: &Resolved) -> u32
    ensures { result ≡ number_or node.now.declaration }
{
    match &node.declaration {
        Some(declaration) => declaration.number(),
        None => 0,
    }
}

/// A function or a mark.
fn called_name(class: Class, node: &Resolved) -> Name
    ensures { result ≡ called_by (role class) node.now.mark }
{
    match class {
        Class::Function
        | Class::GenericFunction
        | Class::InstanceFunction
        | Class::ActualFunction { .. }
        | Class::PredefinedOperator => match &node.mark {
            None => Name::Called,
            Some(_) => Name::Unnamed,
        },
        Class::EnumerationType
        | Class::IntegerType
        | Class::PhysicalType
        | Class::ArrayType { .. }
        | Class::RecordType
        | Class::GenericType
        | Class::Subtype { .. } => Name::Called,
        _ => Name::Unnamed,
    }
}

/// What the declaration of a first piece stands for.
pub(crate) fn first_name(
    alloc: Global,
    revision: Revision,
    declarations: &[Declaration],
    environment: &[Entry<'_>],
    node: Resolved,
) -> Result<Name, AllocError>
    ensures outline { IfOk result (λ x. name_outline_of x ≡ first_outline (role_of (table revision declarations.now) node.declaration) node.mark) }
    ensures name { (e : Env) → Holds environment.now e → IfOk result (λ x. IsName e x (first_piece (table revision declarations.now) node)) }
{
    let Some(declaration) = node.declaration else {
        return Ok(Name::Unnamed);
    };
    match class_of(declarations, declaration.number()) {
        Class::Constant
        | Class::GenericConstant
        | Class::Parameter
        | Class::LoopParameter
        | Class::GenerateParameter
        | Class::Variable => {
            let value = object_value(alloc, environment, declaration.number())?;
            Ok(Name::Valued(Ok(value)))
        }
        Class::Signal => {
            let found = signal_value(alloc, environment, declaration.number())?;
            Ok(Name::Valued(found))
        }
        Class::Port => {
            let found = signal_value(alloc, environment, declaration.number())?;
            Ok(Name::Valued(found))
        }
        Class::EnumerationLiteral => {
            let value = Value::scalar(alloc, Scalar::Literal(node.position))?;
            Ok(Name::Valued(Ok(value)))
        }
        class => Ok(called_name(class, &node)),
    }
}

/// A word.
pub(crate) fn word<'a>(
    alloc: Global,
    revision: Revision,
    declarations: &[Declaration],
    environment: &[Entry<'_>],
    node: Resolved,
    text: &'a [u8],
) -> Result<Sense<'a>, AllocError>
    ensures { IfOk result (λ s. (parts : List NodeSense) → IsNode (table revision declarations.now) environment.now Kinds.Word node text.now parts s) }
{
    let name = first_name(alloc, revision, declarations, environment, node)?;
    Ok(Sense {
        text,
        what: What::Word(name),
    })
}

/// A character literal.
pub(crate) fn character<'a>(
    alloc: Global,
    revision: Revision,
    declarations: &[Declaration],
    environment: &[Entry<'_>],
    node: Resolved,
    text: &'a [u8],
) -> Result<Sense<'a>, AllocError>
    ensures { IfOk result (λ s. (parts : List NodeSense) → IsNode (table revision declarations.now) environment.now Kinds.CharacterLiteral node text.now parts s) }
{
    let value = Value::scalar(alloc, Scalar::Literal(node.position))?;
    Ok(Sense {
        text,
        what: What::Expression(Ok(value)),
    })
}

/// A literal in quotation marks.
pub(crate) fn quoted<'a>(
    alloc: Global,
    revision: Revision,
    declarations: &[Declaration],
    environment: &[Entry<'_>],
    node: Resolved,
    text: &'a [u8],
) -> Result<Sense<'a>, AllocError>
    ensures { IfOk result (λ s. (parts : List NodeSense) → IsNode (table revision declarations.now) environment.now Kinds.StringLiteral node text.now parts s) }
{
    let found = string(alloc, environment, &node.mark, text)?;
    Ok(Sense {
        text,
        what: What::Expression(found),
    })
}

/// An integer literal.
pub(crate) fn integer<'a>(
    alloc: Global,
    revision: Revision,
    declarations: &[Declaration],
    environment: &[Entry<'_>],
    node: Resolved,
    text: &'a [u8],
) -> Result<Sense<'a>, AllocError>
    ensures { IfOk result (λ s. (parts : List NodeSense) → IsNode (table revision declarations.now) environment.now Kinds.NumberLiteral node text.now parts s) }
{
    let what = match number(text) {
        Some(n) if n < 2_147_483_648 => {
            let value = Value::scalar(alloc, Scalar::Integer(n as i32))?;
            What::Expression(Ok(value))
        }
        _ => What::Textual,
    };
    Ok(Sense { text, what })
}

/// A physical literal.
pub(crate) fn physical<'a>(
    alloc: Global,
    revision: Revision,
    declarations: &[Declaration],
    environment: &[Entry<'_>],
    node: Resolved,
    text: &'a [u8],
    parts: &[Sense<'a>],
) -> Result<Sense<'a>, AllocError>
    ensures { IfOk result (λ s. IsNode (table revision declarations.now) environment.now Kinds.TimeLiteral node text.now parts.now s) }
{
    let Some(digits) = text_of(parts, 0) else {
        return Ok(Sense {
            text,
            what: What::NotTaken,
        });
    };
    let Some(name) = text_of(parts, 1) else {
        return Ok(Sense {
            text,
            what: What::NotTaken,
        });
    };
    let found = time(alloc, digits, name)?;
    Ok(Sense {
        text,
        what: What::Expression(found),
    })
}
