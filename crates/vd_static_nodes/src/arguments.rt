//! The arguments of calls, in the order of the parameters. (IEEE 1076, function calls; association lists.)

ghost use Rattle.std.specs.Prelude.{◌≡◌, IfOk, option_copied};
ghost use Rattle.std.specs.List.{list_any};
ghost use Rattle.vd_meaning.specs.Brackets.{is_positional as is_by_position};
ghost use Rattle.vd_static_values.specs.Senses.{association_of};
ghost use Rattle.vd_static_nodes.specs.Arguments.{argument_for as for_parameter, element_at as at_position, element_naming as naming, is_parameter, value_in, values_for as for_parameters};

use std::alloc::{AllocError, Global};
use vd_composites::Value;
use vd_declarations::DeclId;
use vd_static_names::copies::value_again;
use vd_static_values::{Association, Node};

/// Whether one of the choices of an element names a parameter.
fn names_parameter(choices: &[Option<DeclId>], parameter: DeclId) -> bool
    ensures { result ≡ list_any (is_parameter parameter) choices.now }
{
    choices.iter().any(
        |choice| matches!(choice, Some(named) if named.number() == parameter.number()),
    )
}

/// The element that names a parameter.
fn element_naming<'p, 'a>(parts: &'p [Node<'a>], parameter: DeclId) -> Option<&'p Node<'a>>
    ensures { option_copied result ≡ naming parameter parts.now }
{
    parts
        .iter()
        .find(|part| names_parameter(&part.sense.choices, parameter))
}

/// Whether an element has no choices.
fn is_positional(association: Association) -> bool
    ensures { result ≡ is_by_position (association_of association) }
{
    matches!(association, Association::Positional)
}

/// The element at a position, where it and all in front of it have no choices.
fn element_at<'p, 'a>(parts: &'p [Node<'a>], position: usize) -> Option<&'p Node<'a>>
    ensures { option_copied result ≡ at_position position parts.now }
{
    let mut left = position;
    for part in parts {
        if !is_positional(part.sense.association) {
            return None;
        }
        if left == 0 {
            return Some(part);
        }
        left -= 1;
    }
    None
}

/// The element for the parameter with a position: the one that names it, or else the one at its position.
fn argument_for<'p, 'a>(
    parts: &'p [Node<'a>],
    position: usize,
    parameter: DeclId,
) -> Option<&'p Node<'a>>
    ensures { option_copied result ≡ for_parameter position parameter parts.now }
{
    match element_naming(parts, parameter) {
        Some(named) => Some(named),
        None => element_at(parts, position),
    }
}

/// The value of an argument, or none where it stops.
fn argument_value(alloc: Global, argument: Option<&Node<'_>>) -> Result<Option<Value>, AllocError>
    ensures { IfOk result (λ v. v ≡ value_in (option_copied argument.entry)) }
{
    match argument {
        Some(argument) => value_again(alloc, &argument.sense.value),
        None => Ok(None),
    }
}

/// The values of the arguments in the order of the parameters.
///
/// It goes over the elements once for each parameter. That is linear in the text, since it is done only for calls that can be locally static: of
/// predefined operators, and of functions that stand for them, which have one parameter or two.
pub(crate) fn values_for(
    alloc: Global,
    parameters: &[DeclId],
    parts: &[Node<'_>],
) -> Result<Vec<Option<Value>>, AllocError>
    ensures { IfOk result (λ v. v.items ≡ for_parameters 0 parameters.now parts.now) }
{
    let mut values: Vec<Option<Value>> = Vec::new(alloc);
    for (position, parameter) in parameters.iter().enumerate() {
        let argument = argument_for(parts, position, *parameter);
        let value = argument_value(alloc, argument)?;
        values.push(value)?;
    }
    Ok(values)
}
