//! The packages that have a body.

ghost use Rattle.std.specs.Prelude.{◌≡◌, ◌||◌, ℕ, List, false, OnOk, MatchOption};
ghost use Rattle.std.specs.Str.{bytes_eq};
ghost use Rattle.vd_region_tables.specs.declared.keys.Name.{Name};
ghost use Rattle.vd_naming.specs.Units.{is_body_of};
ghost use Rattle.vd_name_entering.specs.Tables.{has_body};

use indexmap::IndexSet;
use std::alloc::{AllocError, Global};
use vd_forest::Cursor;
use vd_forms::Form;
use vd_region_tables::Name;

/// The names of the packages that have a body.
#[derive(Drop)]
pub(crate) struct Bodies {
    names: IndexSet<Name>,
}

impl Bodies {
    /// No package has one.
    pub(crate) fn new(alloc: Global) -> Bodies
        ensures { (key : Name) → has_body result key ≡ false }
    {
        Bodies {
            names: IndexSet::new(alloc),
        }
    }

    /// Whether the package of a name has one.
    pub(crate) fn has(&self, key: &Name) -> bool
        ensures { result ≡ has_body self.now key.now }
    {
        self.names.contains(key)
    }

    /// One unit more.
    pub(crate) fn add(&mut self, alloc: Global, unit: &Cursor<'_, Form>) -> Result<(), AllocError>
        ensures { OnOk result ((key : Name) → has_body self.new key ≡ (is_body_of key.bytes.items unit.now || has_body self.old key)) }
    {
        let Some(name) = package_of_body(unit) else {
            return Ok(());
        };
        let bytes = Vec::from_slice(alloc, name)?;
        self.names.insert(Name { bytes })?;
        Ok(())
    }
}

/// The name of the package of a unit that is the body of one.
fn package_of_body<'a>(unit: &Cursor<'a, Form>) -> Option<&'a [u8]>
    ensures { MatchOption result ((name : List ℕ) → is_body_of name unit.now ≡ false) (λ owner.
        (name : List ℕ) → is_body_of name unit.now ≡ bytes_eq owner.now name) }
{
    let first = unit.open()?;
    match first.form {
        Form::PackageBody => Some(first.parts.text()),
        _ => None,
    }
}
