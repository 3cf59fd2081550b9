//! Elements of maps, the generics that they are for, and places.

ghost use Rattle.std.specs.Prelude.{◌≡◌};
ghost use Rattle.vd_meaning.specs.Brackets.{is_positional as is_by_place};
ghost use Rattle.vd_meaning.specs.Facets.{nth};
ghost use Rattle.vd_meaning.specs.Meanings.{meanings};
ghost use Rattle.vd_meaning.specs.Tables.{Table};
ghost use Rattle.vd_static_rules.specs.Elements.{formal_or, naming};
ghost use Rattle.vd_value_rules.specs.Choices.{place_at as place_of_part};
ghost use Rattle.vd_value_rules.specs.Standings.{first_number as first_of, further_numbers as behind_first};
ghost use Rattle.vd_value_rules.specs.StaticNames.{place_of_actual as place_behind};

use vd_bytes::Place;
use vd_declarations::DeclId;
use vd_forest::{Cursor, Opened};
use vd_forms::Form;
use vd_operations::formal_of;
use vd_resolved::Resolved;

/// The place of the part with a number.
pub fn place_at(number: u32, parts: &Cursor<'_, Resolved>) -> Place
    ensures { result ≡ place_of_part number parts.now }
{
    match parts.skip(number).place() {
        Some(place) => place,
        None => Place {
            file: 0,
            line: 0,
            column: 0,
        },
    }
}

/// The place of the actual of an element, which stands behind `=>` or alone.
pub fn place_of_actual(element: &Opened<'_, Resolved>) -> Place
    ensures { result ≡ place_behind element.now.form.form element.now.place element.now.parts }
{
    match element.form.form {
        Form::Association => place_at(1, &element.parts),
        _ => element.place,
    }
}

/// What an element of a map says of its formal.
#[derive(Clone, Copy)]
enum Naming {
    /// It stands at the place of its formal.
    ByPlace,
    /// It names it, or stands for all others.
    Named,
    /// What its first part says.
    Inner,
}

/// What an element of a form says.
fn naming_of(form: Form) -> Naming
    ensures { result ≡ naming form }
{
    match form {
        Form::UnconstrainedIndex => Naming::Inner,
        Form::OthersAssociation | Form::Association => Naming::Named,
        _ => Naming::ByPlace,
    }
}

/// Whether the first tree, as an element of a map, names nothing in front of `=>`.
#[tactic(auto, using(crate::proofs::ElementLemmas::positional_here))]
fn is_positional(trees: &Cursor<'_, Resolved>) -> bool
    ensures { (t : Table) → result ≡ is_by_place (nth 0 (meanings t trees.now)).association }
{
    let mut rest = trees.fork();
    while let Some(first) = rest.open() {
        match naming_of(first.form.form) {
            Naming::ByPlace => return true,
            Naming::Named => return false,
            Naming::Inner => rest = first.parts,
        }
    }
    true
}

/// The formal of the first tree, as an element of a map: the one that it names, or the next one.
pub fn formal_of_element(trees: &Cursor<'_, Resolved>, next: Option<DeclId>) -> Option<DeclId>
    ensures { (t : Table) → result ≡ formal_or next (nth 0 (meanings t trees.now)) }
{
    if is_positional(trees) {
        next
    } else {
        formal_of(trees)
    }
}

/// The first of some numbers.
pub fn first_number(numbers: &[DeclId]) -> Option<DeclId>
    ensures { result ≡ first_of numbers.now }
{
    match numbers {
        [first, ..] => Some(*first),
        [] => None,
    }
}

/// The numbers behind the first.
pub fn further_numbers(numbers: &[DeclId]) -> &[DeclId]
    ensures { result.now ≡ behind_first numbers.now }
{
    match numbers {
        [_, rest @ ..] => rest,
        [] => &[],
    }
}
