//! Lists of literals and of fields in the store of subtypes.

ghost use Rattle.std.specs.Prelude.{◌≡◌, ◌≤◌, IfOk, length};
ghost use Rattle.vd_forest.specs.Store.{Extends, at};
ghost use Rattle.vd_value_rules.specs.Indicated.{fields_in, indicated_in, texts_in};
ghost use Rattle.vd_known_forms.specs.Fields.{in_front};
ghost use Rattle.vd_meaning.specs.Declarations.{fields_named};

use std::alloc::AllocError;
use vd_bytes::Text;
use vd_known_designs::SubtypeTables;

/// Literals with these texts.
#[tactic(auto, using(vd_forest::proofs::StoreLemmas::growing))]
pub(crate) fn literals(subtypes: &mut SubtypeTables, texts: &[Text]) -> Result<u32, AllocError>
    ensures within { IfOk result (λ number. number ≤ length subtypes.new) }
    ensures texts { IfOk result (λ number. texts_in (at subtypes.new number) ≡ texts.now) }
    ensures extends { Extends subtypes.old subtypes.new }
{
    let mut first = 0;
    let mut left = texts.len();
    while left > 0 {
        left -= 1;
        first = subtypes.literal(texts[left].as_slice(), first)?;
    }
    Ok(first)
}

/// A field of a subtype for each name, in front of others, the last one first.
#[tactic(auto, using(vd_forest::proofs::StoreLemmas::growing))]
pub(crate) fn add_fields(
    subtypes: &mut SubtypeTables,
    names: &[Text],
    subtype: u32,
    behind: u32,
) -> Result<u32, AllocError>
    requires subtype_in { subtype ≤ length subtypes.old }
    requires behind_in { behind ≤ length subtypes.old }
    ensures within { IfOk result (λ number. number ≤ length subtypes.new) }
    ensures fields { IfOk result (λ number. fields_in (at subtypes.new number)
        ≡ in_front (fields_named names.now (indicated_in (at subtypes.old subtype))) (fields_in (at subtypes.old behind))) }
    ensures extends { Extends subtypes.old subtypes.new }
{
    let mut first = behind;
    for name in names {
        first = subtypes.field(name.as_slice(), subtype, first)?;
    }
    Ok(first)
}
