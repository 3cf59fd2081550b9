//! The support package, read and resolved.

ghost use Rattle.std.specs.Prelude.{◌≡◌, ◌≤◌, IfOk, length};

use std::alloc::{AllocError, Global};
use vd_bytes::{Bytes, Text};
use vd_design_files::{DesignEnd, DesignFiles, design_of_files};
use vd_directives::Settings;
use vd_forest::Store;
use vd_match::support_text;
use vd_name_resolution::resolve_names;
use vd_resolved::Tree;
use vd_trees::Revision;

/// How long a text may be that is read.
const LONGEST: usize = 8_388_608;

/// A design without units.
fn nothing(alloc: Global) -> Tree {
    Tree::of(Store::new(alloc), 0, Vec::new(alloc))
}

/// The design of the text of the support package.
fn design(alloc: Global) -> Result<DesignFiles, DesignEnd> {
    let text = Bytes::from_slice(alloc, support_text().as_bytes())?;
    if text.as_slice().len() > LONGEST {
        return Err(DesignEnd::Memory);
    }
    let settings = Settings {
        tool_type: Text::from_slice(alloc, b"SIMULATION")?,
    };
    design_of_files(alloc, &settings, &[text])
}

/// The support package as a resolved design of revision 2019. Where its text couldn't be read it is none, so that nothing is converted that needs it.
pub(crate) fn support(alloc: Global) -> Result<Tree, AllocError> {
    match design(alloc) {
        Ok(files) => {
            let named = resolve_names(alloc, Revision::V2019, &files.design.units())?;
            Ok(named.tree)
        }
        Err(DesignEnd::Memory) => Err(AllocError),
        Err(_) => Ok(nothing(alloc)),
    }
}
