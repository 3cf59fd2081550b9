//! The conversion of files.

ghost use Rattle.std.specs.Prelude.{◌≡◌, ◌≤◌, ◌<◌, ◌↔◌, IfOk, IfErr, IsTrue, length, sum_by};
ghost use Rattle.vd_accepting.specs.Phases.{IsAccepted, resolved_design};
ghost use Rattle.vd_trees.specs.declared.revision.Revision.TheVariants.{V2019};
ghost use Rattle.vd_weighing.specs.Weights.{weight_of};
ghost use Rattle.vd_modes.specs.Conversions.{AreConverted, IsEndOfDesign, IsLegal, PassesLimit, RefusesRule, end_of_files, unconverted};
ghost use Rattle.vd_modes.specs.Texts.{IsIn93};

use crate::lowering::{Lowered, lower};
use crate::rereading::{RereadEnd, reread};
use std::alloc::{AllocError, Global};
use thiserror::Error;
use vd_accepting::{Accepted, accept19};
use vd_bytes::{Bytes, Limit, Place, Refusal, Refused};
use vd_design_files::{DesignEnd, DesignFiles, Warnings, design_of_files};
use vd_directives::Settings;
use vd_first_names::map::NameMap;
use vd_forms::Design19;

/// How much may be made of a design.
const MOST: u64 = 4_000_000;

/// The rule that a design breaks which can't be converted yet.
const NOT_YET: u16 = 199;

/// The written design, the map, how many design units the files have, and their warnings.
#[derive(Debug, Drop)]
pub struct Converted {
    pub design: Bytes,
    pub map: NameMap,
    pub units: u32,
    pub warnings: Warnings,
}

/// Why nothing is written.
#[derive(Clone, Copy, PartialEq, Eq, Debug, Error)]
pub enum ConvertEnd {
    /// A rule of revision 2019 is broken at the place; or none is, and the rule is 199 and the place that of the first unit: the program can't show
    /// that what it would write is a text of revision 1993.
    #[error("a rule is broken")]
    Refused(Refused),
    /// A limit is passed.
    #[error("a limit is passed")]
    Limit(Limit),
    /// Memory ran out.
    #[error("out of memory")]
    Memory,
}

impl From<AllocError> for ConvertEnd {
    ghost use Rattle.vd_modes.specs.declared.conversion.ConvertEnd.TheVariants.{Memory};

    ghost from_gives = { λ _ end. end ≡ Memory };

    fn from(_: AllocError) -> Self {
        ConvertEnd::Memory
    }
}

/// What the end of reading files is here.
fn end_of_files(end: DesignEnd) -> ConvertEnd
    ensures { result ≡ end_of_files end }
{
    match end {
        DesignEnd::Refused(refused) => ConvertEnd::Refused(refused),
        DesignEnd::Limit(limit) => ConvertEnd::Limit(limit),
        DesignEnd::Memory => ConvertEnd::Memory,
    }
}

/// That a design can't be converted yet, said at its first unit.
fn unconverted(design: &Design19) -> Refused
    ensures { result ≡ unconverted design.now }
{
    let place = match design.units().place() {
        Some(place) => place,
        None => Place {
            file: 0,
            line: 1,
            column: 1,
        },
    };
    Refused {
        place,
        rule: NOT_YET,
    }
}

/// A design that breaks no rule, resolved.
fn accept(alloc: Global, design: &Design19) -> Result<Accepted, ConvertEnd>
    ensures resolved { IfOk result (λ accepted. accepted ≡ resolved_design V2019 design.now) }
    ensures legal { IfOk result (λ accepted. IsAccepted V2019 design.now) }
    ensures end { IfErr result (IsEndOfDesign design.now) }
{
    match accept19(alloc, design) {
        Ok(accepted) => Ok(accepted),
        Err(Refusal::Refused(refused)) => Err(ConvertEnd::Refused(refused)),
        Err(Refusal::Memory) => Err(ConvertEnd::Memory),
    }
}

/// Whether more is to be made of a design than may be.
fn is_heavy(alloc: Global, accepted: &Accepted) -> Result<bool, AllocError>
    ensures { IfOk result (λ heavy. IsTrue heavy ↔ (4000000 < weight_of accepted.now.declarations accepted.now.units)) }
{
    let weight = accepted.weight(alloc)?;
    Ok(weight > MOST)
}

/// What is to be written of a design that breaks no rule, where it passes the check.
fn checked(alloc: Global, accepted: &Accepted) -> Result<Lowered, RereadEnd>
    ensures { IfOk result (λ made. IsIn93 made.text) }
{
    let made = lower(alloc, accepted.resolved())?;
    reread(alloc, made.text.as_slice(), &made.trees.cursor(made.units))?;
    Ok(made)
}

/// What is to be written of a design, or why nothing is.
fn written(alloc: Global, design: &Design19) -> Result<Lowered, ConvertEnd>
    ensures legal { IfOk result (λ made. IsLegal design.now) }
    ensures in_93 { IfOk result (λ made. IsIn93 made.text) }
    ensures end { IfErr result (IsEndOfDesign design.now) }
{
    let accepted = accept(alloc, design)?;
    if is_heavy(alloc, &accepted)? {
        return Err(ConvertEnd::Limit(Limit::Nodes));
    }
    match checked(alloc, &accepted) {
        Ok(made) => Ok(made),
        Err(RereadEnd::Memory) => Err(ConvertEnd::Memory),
        Err(_) => Err(ConvertEnd::Refused(unconverted(design))),
    }
}

/// Converts the design of some files.
fn convert_design(alloc: Global, files: DesignFiles) -> Result<Converted, ConvertEnd>
    ensures legal { IfOk result (λ c. IsLegal files.design) }
    ensures in_93 { IfOk result (λ c. IsIn93 c.design) }
    ensures same { IfOk result (λ c. (c.units ≡ files.units) × (c.warnings ≡ files.warnings)) }
    ensures end { IfErr result (IsEndOfDesign files.design) }
{
    let made = written(alloc, &files.design)?;
    let Lowered { text, map, .. } = made;
    let DesignFiles {
        units,
        warnings,
        ..
    } = files;
    Ok(Converted {
        design: text,
        map,
        units,
        warnings,
    })
}

/// Converts files of revision 2019 with these contents, in their order: they become one text of revision 1993 with a map of its names.
pub fn convert(
    alloc: Global,
    settings: &Settings,
    contents: &[Bytes],
) -> Result<Converted, ConvertEnd>
    requires few { length contents.now ≤ 64 }
    requires within { sum_by length contents.now ≤ 8388608 }

    // A rule is refused: the first one that the files break; or 199, only where they break none and their weight is within the limit.
    ensures refused { IfErr result (RefusesRule settings.now.tool_type contents.now) }

    // A limit is passed: one of those on texts; or that of nodes, exactly where the files break no rule and their weight is above it.
    ensures nodes { IfErr result (PassesLimit settings.now.tool_type contents.now) }

    // The bytes of the design, read again by the lexis and the grammar of revision 1993, are a design that breaks no rule of that revision, and they
    // are its layout.
    ensures in_93 { IfOk result (λ c. IsIn93 c.design) }

    // The files break no rule, and have so many units and these warnings.
    ensures units { IfOk result (λ c. AreConverted settings.now.tool_type contents.now c.units c.warnings) }
{
    match design_of_files(alloc, settings, contents) {
        Ok(files) => convert_design(alloc, files),
        Err(end) => Err(end_of_files(end)),
    }
}
