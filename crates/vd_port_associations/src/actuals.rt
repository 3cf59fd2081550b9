//! What stands for a port.

ghost use Rattle.std.specs.Prelude.{◌≡◌, ◌∷◌, IfOk, List, OnOk};
ghost use Rattle.vd_operations.specs.Roles.{read_role};
ghost use Rattle.vd_known_designs.specs.Designs.{IsReady, Knows};
ghost use Rattle.vd_known_designs.specs.Contents.{or_nothing};
ghost use Rattle.vd_port_associations.specs.Associations.{read_actual, read_actual_some, read_signal, signal_named_if};
ghost use Rattle.vd_port_modes.specs.Readings.{read_reached};
ghost use Rattle.vd_port_modes.specs.Source.{design_in};
ghost use Rattle.vd_value_rules.specs.Actuals.{AnExpression, actual_sort as sort_of_actual, around_signal, in_last_brackets, last_brackets as brackets_last, named_signal as signal_named, one_argument as argument_alone, sort_of_name as sort_by_name, sort_or};
ghost use Rattle.vd_value_rules.specs.Choices.{first_meaning};
ghost use Rattle.vd_value_rules.specs.Designs.{Design};
ghost use Rattle.vd_value_rules.specs.Knowledge.{Known};
ghost use Rattle.vd_value_rules.specs.Reaching.{nothing_reached, reached as is_reached};

use crate::brackets::last_brackets;
use crate::formals::mark_or_first;
use std::alloc::{AllocError, Global};
use vd_bytes::Place;
use vd_declarations::DeclId;
use vd_forest::Cursor;
use vd_forms::Form;
use vd_known_designs::KnownDesign;
use vd_known_indications::node;
use vd_operations::Role;
use vd_port_modes::{Interfaces, Reached, is_signal_name, reached_by};
use vd_resolved::Resolved;
use vd_static_values::KnownName;

/// What an actual is.
#[derive(Drop)]
pub enum ActualSort<'a> {
    NoActual,
    /// The name of a signal whose indexes are static, where it stands, and what it names.
    SignalNamed {
        place: Place,
        name: Reached<'a>,
    },
    /// A conversion of one to a mark.
    SignalConverted {
        mark: DeclId,
        place: Place,
        name: Reached<'a>,
    },
    /// A call with one argument, which is the name of a signal.
    SignalPassed,
    /// Any other expression, and what it names where it is a name.
    AnExpression {
        place: Place,
        name: Reached<'a>,
    },
}

/// The name of a signal, where it stands.
#[derive(Drop)]
pub struct SignalName<'a> {
    pub place: Place,
    pub name: Reached<'a>,
}

/// Nothing that is named.
fn nothing_named<'a>(alloc: Global) -> Reached<'a>
    ensures { read_reached result ≡ nothing_reached }
{
    Reached {
        declaration: None,
        fields: Vec::new(alloc),
        attribute: None,
        is_value: true,
    }
}

/// Whether the longest static prefix of a name is the whole name.
fn is_whole(name: &KnownName) -> bool
    ensures { result ≡ name.now.is_whole }
{
    name.is_whole
}

/// Whether the indexes and bounds of a name, the first tree, are known in elaboration.
fn is_whole_name(
    design: &mut KnownDesign<'_, '_>,
    alloc: Global,
    trees: &Cursor<'_, Resolved>,
) -> Result<bool, AllocError>
    requires ready { IsReady design.old }
    ensures whole { (d : Design) (k : Known) (ks : List Known) → Knows d design.old (k ∷ ks)
        → IfOk result (λ b. b ≡ (first_meaning d trees.now).name.is_whole k.env) }
    ensures knows { (d : Design) (ks : List Known) → Knows d design.old ks → Knows d design.new ks }
{
    let first = node(design, alloc, trees)?;
    Ok(is_whole(&first.sense.name))
}

/// A signal, where a name is one and its indexes are known.
fn signal_if<'a>(
    interfaces: &Interfaces<'_>,
    place: Place,
    name: Reached<'a>,
    is_whole: bool,
) -> Option<SignalName<'a>>
    ensures { read_signal result ≡ signal_named_if (design_in interfaces.now) place (read_reached name.entry) is_whole }
{
    if is_signal_name(interfaces, &name) && is_whole {
        Some(SignalName { place, name })
    } else {
        None
    }
}

/// The signal that the first tree names as such.
fn named_signal<'a>(
    design: &mut KnownDesign<'_, '_>,
    interfaces: &Interfaces<'a>,
    alloc: Global,
    trees: &Cursor<'a, Resolved>,
) -> Result<Option<SignalName<'a>>, AllocError>
    requires ready { IsReady design.old }
    ensures signal { (k : Known) (ks : List Known) → Knows (design_in interfaces.now) design.old (k ∷ ks)
        → IfOk result (λ x. read_signal x ≡ signal_named (design_in interfaces.now) k.env trees.now) }
    ensures knows { (d : Design) (ks : List Known) → Knows d design.old ks → Knows d design.new ks }
{
    let Some(tree) = trees.open() else {
        return Ok(None);
    };
    match tree.form.form {
        Form::Name => {
            let name = reached_by(alloc, interfaces, &tree.parts)?;
            let is_whole = is_whole_name(design, alloc, trees)?;
            Ok(signal_if(interfaces, tree.place, name, is_whole))
        }
        _ => Ok(None),
    }
}

/// The one element in brackets, also where it stands behind `=>`.
fn one_argument<'a>(elements: &Cursor<'a, Resolved>) -> Option<Cursor<'a, Resolved>>
    ensures { or_nothing result ≡ argument_alone elements.now }
{
    let Some(first) = elements.open() else {
        return None;
    };
    if first.next.form().is_some() {
        return None;
    }
    match first.form.form {
        Form::Association => Some(first.parts.skip(1)),
        _ => Some(elements.fork()),
    }
}

/// A signal in brackets behind a mark or a function.
fn around<'a>(role: Role, mark: DeclId, signal: Option<SignalName<'a>>) -> Option<ActualSort<'a>>
    ensures { read_actual_some result ≡ around_signal (read_role role) mark (read_signal signal.entry) }
{
    let Some(signal) = signal else {
        return None;
    };
    match role {
        Role::Mark => Some(ActualSort::SignalConverted {
            mark,
            place: signal.place,
            name: signal.name,
        }),
        Role::Function => Some(ActualSort::SignalPassed),
        _ => None,
    }
}

/// A conversion or a call of a signal, by the pieces of a name.
fn bracketed_signal<'a>(
    design: &mut KnownDesign<'_, '_>,
    interfaces: &Interfaces<'a>,
    alloc: Global,
    pieces: &Cursor<'a, Resolved>,
) -> Result<Option<ActualSort<'a>>, AllocError>
    requires ready { IsReady design.old }
    ensures signal { (k : Known) (ks : List Known) → Knows (design_in interfaces.now) design.old (k ∷ ks)
        → IfOk result (λ x. read_actual_some x ≡ in_last_brackets (design_in interfaces.now) k.env (brackets_last pieces.now)) }
    ensures knows { (d : Design) (ks : List Known) → Knows d design.old ks → Knows d design.new ks }
{
    let Some(brackets) = last_brackets(pieces) else {
        return Ok(None);
    };
    let Some(argument) = one_argument(&brackets.elements) else {
        return Ok(None);
    };
    let signal = named_signal(design, interfaces, alloc, &argument)?;
    let role = interfaces.role_of(brackets.declaration);
    Ok(around(role, mark_or_first(brackets.declaration), signal))
}

/// Any other expression, whose place and pieces these are.
fn expression<'a>(
    interfaces: &Interfaces<'a>,
    alloc: Global,
    place: Place,
    pieces: &Cursor<'a, Resolved>,
) -> Result<ActualSort<'a>, AllocError>
    ensures { IfOk result (λ x. read_actual x ≡ AnExpression place (is_reached (design_in interfaces.now) pieces.now)) }
{
    let name = reached_by(alloc, interfaces, pieces)?;
    Ok(ActualSort::AnExpression { place, name })
}

/// A name that names no signal as such.
fn sort_without_signal<'a>(
    design: &mut KnownDesign<'_, '_>,
    interfaces: &Interfaces<'a>,
    alloc: Global,
    place: Place,
    pieces: &Cursor<'a, Resolved>,
) -> Result<ActualSort<'a>, AllocError>
    requires ready { IsReady design.old }
    ensures sort { (k : Known) (ks : List Known) → Knows (design_in interfaces.now) design.old (k ∷ ks) → IfOk result (λ x. read_actual x
        ≡ sort_or (in_last_brackets (design_in interfaces.now) k.env (brackets_last pieces.now)) (AnExpression place (is_reached (design_in interfaces.now) pieces.now))) }
    ensures knows { (d : Design) (ks : List Known) → Knows d design.old ks → OnOk result (Knows d design.new ks) }
{
    match bracketed_signal(design, interfaces, alloc, pieces)? {
        Some(sort) => Ok(sort),
        None => expression(interfaces, alloc, place, pieces),
    }
}

/// A name.
fn sort_of_name<'a>(
    design: &mut KnownDesign<'_, '_>,
    interfaces: &Interfaces<'a>,
    alloc: Global,
    trees: &Cursor<'a, Resolved>,
    place: Place,
    pieces: &Cursor<'a, Resolved>,
) -> Result<ActualSort<'a>, AllocError>
    requires ready { IsReady design.old }
    ensures sort { (k : Known) (ks : List Known) → Knows (design_in interfaces.now) design.old (k ∷ ks)
        → IfOk result (λ x. read_actual x ≡ sort_by_name (design_in interfaces.now) k.env trees.now place pieces.now) }
    ensures knows { (d : Design) (ks : List Known) → Knows d design.old ks → OnOk result (Knows d design.new ks) }
{
    match named_signal(design, interfaces, alloc, trees)? {
        Some(signal) => Ok(ActualSort::SignalNamed {
            place: signal.place,
            name: signal.name,
        }),
        None => sort_without_signal(design, interfaces, alloc, place, pieces),
    }
}

/// What the first of these trees is as an actual.
pub fn actual_sort<'a>(
    design: &mut KnownDesign<'_, '_>,
    interfaces: &Interfaces<'a>,
    alloc: Global,
    actual: &Cursor<'a, Resolved>,
) -> Result<ActualSort<'a>, AllocError>
    requires ready { IsReady design.old }
    ensures sort { (k : Known) (ks : List Known) → Knows (design_in interfaces.now) design.old (k ∷ ks)
        → IfOk result (λ x. read_actual x ≡ sort_of_actual (design_in interfaces.now) k.env actual.now) }
    ensures knows { (d : Design) (ks : List Known) → Knows d design.old ks → OnOk result (Knows d design.new ks) }
{
    let Some(tree) = actual.open() else {
        return Ok(ActualSort::NoActual);
    };
    match tree.form.form {
        Form::Open => Ok(ActualSort::NoActual),
        Form::Name => sort_of_name(design, interfaces, alloc, actual, tree.place, &tree.parts),
        Form::OperatorName => {
            sort_of_name(design, interfaces, alloc, actual, tree.place, &tree.parts)
        }
        _ => Ok(ActualSort::AnExpression {
            place: tree.place,
            name: nothing_named(alloc),
        }),
    }
}
