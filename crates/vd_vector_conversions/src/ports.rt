//! How the formal and the actual of a port are converted.

ghost use Rattle.std.specs.Prelude.{◌≡◌};
ghost use Rattle.vd_vector_conversions.specs.Ports.{bare_node, bare_target, formal_in, formal_of, is_bare_in, is_conversion, is_converted_signal, operand_of, out_formal, tied, tied_in, tied_inout};

use crate::facts::{Facts, Mode, flavour_at, is_signal, mode_at};
use crate::flavours::{Flavour, differing, is_vector};
use crate::inside::Want;
use crate::naturals::{Flavoured, first_declaration, flavour_of, last_tree};
use crate::numbers::{number_marked, number_named};
use crate::sorts::{Sort, sort_of};
use vd_forest::Cursor;
use vd_predefined::numbers::{STD_LOGIC_VECTOR, STD_ULOGIC_VECTOR};

/// The port of a formal: the one that its node names, or else the one that it converts.
pub fn formal_in(named: Option<u32>, parts: &Cursor<'_, Flavoured>) -> Option<u32>
    ensures { result ≡ formal_in named parts.now }
{
    match named {
        Some(port) => Some(port),
        None => first_declaration(&last_tree(parts).parts().parts()),
    }
}

/// The port of an association.
fn formal_of(formals: &Cursor<'_, Flavoured>) -> Option<u32>
    ensures { result ≡ formal_of formals.now }
{
    let first = formals.parts();
    formal_in(first_declaration(&first), &first.parts())
}

/// Whether a mark is that of one of the two types.
fn is_conversion_mark(number: Option<u32>) -> bool
    ensures { result ≡ Rattle.vd_vector_conversions.specs.Ports.is_conversion_mark number }
{
    match number {
        Some(of) => of == STD_ULOGIC_VECTOR || of == STD_LOGIC_VECTOR,
        None => false,
    }
}

/// The declaration that a list in brackets calls or converts to.
fn bracketed_declaration(trees: &Cursor<'_, Flavoured>) -> Option<u32>
    ensures { result ≡ Rattle.vd_vector_conversions.specs.Ports.bracketed_declaration trees.now }
{
    let first = trees.open()?;
    match sort_of(first.form.node.form) {
        Sort::Bracketed => number_named(&first.form.node.declaration),
        _ => None,
    }
}

/// Whether an actual is a conversion to one of the two types.
fn is_conversion(actual: &Cursor<'_, Flavoured>) -> bool
    ensures { result ≡ is_conversion actual.now }
{
    let Some(first) = actual.open() else {
        return false;
    };
    match sort_of(first.form.node.form) {
        Sort::Whole => is_conversion_mark(bracketed_declaration(&last_tree(&first.parts))),
        _ => false,
    }
}

/// What a conversion converts.
fn operand_of<'a>(actual: &Cursor<'a, Flavoured>) -> Cursor<'a, Flavoured>
    ensures { result ≡ operand_of actual.now }
{
    last_tree(&actual.parts()).parts()
}

/// Whether an actual is a conversion of a signal to one of the two types.
fn is_converted_signal(facts: &Facts, actual: &Cursor<'_, Flavoured>) -> bool
    ensures { result ≡ is_converted_signal facts.now actual.now }
{
    if !is_conversion(actual) {
        return false;
    }
    is_signal(facts, first_declaration(&operand_of(actual).parts()))
}

/// What the node of such an operand is to be converted to.
fn bare_node(port: Option<Flavour>, node: &Flavoured) -> Option<Flavour>
    ensures { result ≡ bare_node port node.now }
{
    if is_vector(number_marked(&node.node.mark)) {
        differing(node.flavour, port)
    } else {
        port
    }
}

/// What the operand of a conversion is to be converted to instead, for a port of this flavour.
fn bare_target(port: Option<Flavour>, operand: &Cursor<'_, Flavoured>) -> Option<Flavour>
    ensures { result ≡ bare_target port operand.now }
{
    let first = operand.open()?;
    bare_node(port, &first.form)
}

/// Whether an actual of a port of some flavour is a conversion of a signal.
fn is_bare_in(facts: &Facts, port: Option<Flavour>, actual: &Cursor<'_, Flavoured>) -> bool
    ensures { result ≡ is_bare_in facts.now port actual.now }
{
    match port {
        Some(_) => is_converted_signal(facts, actual),
        None => false,
    }
}

/// The association of a port `in`: its actual is converted, by one conversion, or by none.
fn tied_in(facts: &Facts, port: Option<Flavour>, actual: &Cursor<'_, Flavoured>) -> Want
    ensures { result ≡ tied_in facts.now port actual.now }
{
    if is_bare_in(facts, port, actual) {
        Want::Tied {
            formal: None,
            actual: bare_target(port, &operand_of(actual)),
            is_bare: true,
        }
    } else {
        Want::Tied {
            formal: None,
            actual: port,
            is_bare: false,
        }
    }
}

/// What the formal of a port that is driven is converted to.
fn out_formal(port: Option<Flavour>, actual: Option<Flavour>) -> Option<Flavour>
    ensures { result ≡ out_formal port actual }
{
    match port {
        Some(_) => differing(port, actual),
        None => actual,
    }
}

/// The association of a port `inout`: both are converted, or none.
fn tied_inout(port: Option<Flavour>, actual: Option<Flavour>) -> Want
    ensures { result ≡ tied_inout port actual }
{
    match out_formal(port, actual) {
        Some(formal) => Want::Tied {
            formal: Some(formal),
            actual: port,
            is_bare: false,
        },
        None => Want::Tied {
            formal: None,
            actual: None,
            is_bare: false,
        },
    }
}

/// How the formal and the actual of an association are converted, by the mode of the port.
pub fn tied(facts: &Facts, parts: &Cursor<'_, Flavoured>) -> Want
    ensures { result ≡ tied facts.now parts.now }
{
    let number = formal_of(parts);
    let port = flavour_at(facts, number);
    let actual = parts.next();
    match mode_at(facts, number) {
        Mode::In => tied_in(facts, port, &actual),
        Mode::Out => Want::Tied {
            formal: out_formal(port, flavour_of(&actual)),
            actual: None,
            is_bare: false,
        },
        Mode::InOut => tied_inout(port, flavour_of(&actual)),
    }
}
