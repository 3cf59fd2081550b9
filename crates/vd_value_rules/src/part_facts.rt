//! The parts of a subtype as a tree: elements, fields, literals.

ghost use Rattle.std.specs.Prelude.{◌≡◌};
ghost use Rattle.vd_environments.specs.Environments.{literals_of};
ghost use Rattle.vd_value_rules.specs.Indicated.{element_indicated, field_indicated, index_literals as literals_of_index, indicated_in, texts_in};
ghost use Rattle.vd_forest.specs.Forest.{nothing};

use crate::forms::IndicatedForm;
use vd_forest::Cursor;

/// No tree, in the store of another.
fn no_tree<'a>(beside: &Cursor<'a, IndicatedForm>) -> Cursor<'a, IndicatedForm>
    ensures { result ≡ nothing }
{
    let (store, _) = beside.stands();
    store.cursor(0)
}

/// The subtype of the elements of an array.
pub fn element<'a>(subtype: &Cursor<'a, IndicatedForm>) -> Cursor<'a, IndicatedForm>
    ensures { indicated_in result ≡ element_indicated (indicated_in subtype.now) }
{
    let Some(first) = subtype.open() else {
        return subtype.fork();
    };
    match first.form {
        IndicatedForm::Unbounded { .. } => first.parts,
        IndicatedForm::Bounded { .. } => first.parts,
        _ => no_tree(subtype),
    }
}

/// The subtype of a record's field, by its number from 0. It takes as many steps as fields stand before it.
#[tactic(auto, using(crate::proofs::FieldLemmas::field_skipped))]
pub fn field<'a>(subtype: &Cursor<'a, IndicatedForm>, number: u32) -> Cursor<'a, IndicatedForm>
    ensures { indicated_in result ≡ field_indicated number (indicated_in subtype.now) }
{
    let Some(first) = subtype.open() else {
        return subtype.fork();
    };
    match first.form {
        IndicatedForm::Record => first.parts.skip(number),
        _ => no_tree(subtype),
    }
}

/// The literals of a scalar type, each the text of a tree.
pub fn literals<'a>(subtype: &Cursor<'a, IndicatedForm>) -> Cursor<'a, IndicatedForm>
    ensures { texts_in result ≡ literals_of (indicated_in subtype.now).make }
{
    let Some(first) = subtype.open() else {
        return subtype.fork();
    };
    match first.form {
        IndicatedForm::Scalar { .. } => first.parts,
        _ => no_tree(subtype),
    }
}

/// The literals of the index type of an array, each the text of a tree.
pub fn index_literals<'a>(subtype: &Cursor<'a, IndicatedForm>) -> Cursor<'a, IndicatedForm>
    ensures { texts_in result ≡ literals_of_index (indicated_in subtype.now).make }
{
    let Some(first) = subtype.open() else {
        return subtype.fork();
    };
    match first.form {
        IndicatedForm::Unbounded { .. } => first.parts.next(),
        IndicatedForm::Bounded { .. } => first.parts.next(),
        _ => no_tree(subtype),
    }
}
