//! A mode over files, and the lines of answers.

ghost use Rattle.std.specs.Prelude.{ℕ, List, true};
ghost use Rattle.vd_program.specs.Dues.{Due};

use crate::parts::{Part, name_of};
use crate::trays::status_part;
use std::alloc::{AllocError, Global};
use vd_bytes::{Bytes, Limit, Place, Refused};
use vd_program::{Contents, DueBytes, Task, too_many_units};

/// Tells the length of each file as the design, and how many there are as the map.
pub struct Lengths;

impl Task for Lengths {
    ghost takes = { λ _ _. Unit {0} };

    ghost writes = { λ _. true };

    ghost says = { λ _ _ _ _. Unit {0} };

    fn writes_files(&self) -> bool {
        true
    }

    fn form(
        &self,
        alloc: Global,
        names: &[String],
        contents: &Contents,
    ) -> Result<DueBytes, AllocError> {
        let design = lengths_told(alloc, names, contents)?;
        let count = names.len();
        let map = format!(in alloc; "{count}\n")?;
        let line = String::from_str(alloc, "done\n")?;
        Ok(DueBytes::files(Bytes::of(design), map.into_bytes(), line))
    }
}

fn lengths_told(
    alloc: Global,
    names: &[String],
    contents: &Contents,
) -> Result<Vec<u8>, AllocError> {
    let mut text = Vec::new(alloc);
    for (name, content) in names.iter().zip(contents.as_slice()) {
        let length = content.as_slice().len();
        let line = format!(in alloc; "{name} {length}\n")?;
        text.extend_from_slice(line.as_bytes())?;
    }
    Ok(text)
}

/// What is due, each as a part.
fn parts_of(alloc: Global, due: &DueBytes) -> Result<Vec<Part>, AllocError> {
    let mut parts = Vec::new(alloc);
    parts.push(status_part(alloc, due.status())?)?;
    parts.push(Part::of(alloc, "design", "", due.design())?)?;
    parts.push(Part::of(alloc, "map", "", due.map())?)?;
    parts.push(Part::of(alloc, "console", "", due.console())?)?;
    Ok(parts)
}

/// What is due where a `rule` is broken in a `file`, at a `line` and a `column`.
pub fn refusal(alloc: Global, given: &[Part]) -> anyhow::Result<Vec<Part>> {
    let place = Place {
        file: 1,
        line: name_of(given, "line").parse::<u32>()?,
        column: name_of(given, "column").parse::<u32>()?,
    };
    let rule = name_of(given, "rule").parse::<u16>()?;
    let due = DueBytes::refusal(alloc, name_of(given, "file"), &Refused { place, rule })?;
    Ok(parts_of(alloc, &due)?)
}

/// What is due where there are `units` of this number, or that they aren't too many.
pub fn units(alloc: Global, given: &[Part]) -> anyhow::Result<Vec<Part>> {
    let count = name_of(given, "units").parse::<usize>()?;
    if too_many_units(count) {
        let due = DueBytes::limit(alloc, Limit::Units)?;
        return Ok(parts_of(alloc, &due)?);
    }
    let mut parts = Vec::new(alloc);
    parts.push(Part::named(alloc, "fits", "")?)?;
    Ok(parts)
}
