//! The fields of the subtypes of names.

ghost use Rattle.std.specs.Prelude.{◌≡◌, ◌≤◌, IfOk, is_some, length};
ghost use Rattle.vd_forest.specs.Forest.{form_of, skipped};
ghost use Rattle.vd_forest.specs.Store.{at};
ghost use Rattle.vd_static_names.specs.Jumps.{AreJumps, field_trees};
ghost use Rattle.vd_static_values.specs.Names.{number_in};
ghost use Rattle.vd_static_names.specs.Parts.{IsField};

use crate::FieldTable;
use std::alloc::AllocError;
use vd_forest::Store;
use vd_static_values::NameSubtype;
use vd_value_rules::IndicatedForm;

/// Whether there is a tree.
pub(crate) fn is_tree(subtypes: &Store<IndicatedForm>, number: u32) -> bool
    requires { number ≤ length subtypes.now }
    ensures { result ≡ is_some (form_of (at subtypes.now number)) }
{
    subtypes.head(number).is_some()
}

/// The trees behind the first ones, as many as `count` says.
fn skip(subtypes: &Store<IndicatedForm>, number: u32, count: u32) -> u32
    requires { number ≤ length subtypes.now }
    ensures within { result ≤ length subtypes.now }
    ensures is { at subtypes.now result ≡ skipped count (at subtypes.now number) }
{
    let mut here = number;
    let mut left = count;
    while left > 0 && here > 0 {
        here = subtypes.after(here);
        left -= 1;
    }
    here
}

/// The trees of a record's fields from one on.
fn fields_from(subtypes: &Store<IndicatedForm>, subtype: u32, number: u32) -> u32
    requires { subtype ≤ length subtypes.now }
    ensures within { result ≤ length subtypes.now }
    ensures is { at subtypes.now result ≡ skipped number (field_trees (at subtypes.now subtype)) }
{
    let Some(head) = subtypes.head(subtype) else {
        return 0;
    };
    match head.form {
        IndicatedForm::Record => skip(subtypes, head.parts, number),
        _ => 0,
    }
}

/// The subtype of a field.
pub(crate) fn field_of(subtypes: &Store<IndicatedForm>, subtype: NameSubtype, number: u32) -> u32
    requires { number_in subtype ≤ length subtypes.now }
    ensures within { result ≤ length subtypes.now }
    ensures is { IsField subtypes.now number subtype result }
{
    match subtype {
        NameSubtype::Stored(of) => fields_from(subtypes, of, number),
        NameSubtype::Slice { .. } => 0,
    }
}

/// The same, by a table.
pub(crate) fn field_in_table(
    subtypes: &Store<IndicatedForm>,
    fields: &mut FieldTable,
    subtype: NameSubtype,
    number: u32,
) -> Result<u32, AllocError>
    requires within { number_in subtype ≤ length subtypes.now }
    requires fields { AreJumps fields.old.jumps.items subtypes.now }
    ensures within { IfOk result (λ found. found ≤ length subtypes.now) }
    ensures is { IfOk result (IsField subtypes.now number subtype) }
    ensures fields { AreJumps fields.new.jumps.items subtypes.now }
{
    match subtype {
        NameSubtype::Stored(of) => {
            let found = fields.field(subtypes, of, number)?;
            Ok(found)
        }
        NameSubtype::Slice { .. } => Ok(0),
    }
}
