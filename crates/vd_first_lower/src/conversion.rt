//! The whole conversion.

ghost use Rattle.std.specs.Prelude.{◌≡◌, length, All, IfOk};
ghost use Rattle.vd_first_lex.specs.declared.selected.Selected.{Selected};
ghost use Rattle.vd_first_lex.specs.Lexings.{ColumnsFit};
ghost use Rattle.vd_first_accept.specs.Acceptance.{IsOnly};
ghost use Rattle.vd_first_lower.specs.Conversions.{Converts};
ghost use Rattle.vd_first_lower.specs.Headline.{IsIn93, IsLaidOut, HaveTops, HasWholeMap, KeepsInterface, KeepsRun, ShowsTheSame};
ghost use Rattle.vd_first_lower.specs.Steps.{IsWritten, HasOneConversion};

use std::alloc::{AllocError, Global};
use vd_bytes::Bytes;
use vd_first_accept::{ConvertEnd, accept19};
use vd_first_lex::Selected;
use vd_first_names::{NameMap, map_of};
use vd_first_passes::lower;
use vd_first_print::derive93;
use vd_first_print::layout::layout;
use vd_first_trees::Design19;

/// The written design, the map, and how many design units the files have.
#[derive(Debug, Drop)]
pub struct Converted {
    pub design: Bytes,
    pub map: NameMap,
    pub units: u32,
}

/// Converts one file: the design and the map, or the first answer that is due instead.
pub fn convert(alloc: Global, files: &[Selected]) -> Result<Converted, ConvertEnd>
    requires one { length files.now ≡ 1 }
    requires columns { All ColumnsFit files.now }
    ensures exact { (file : Selected) → IsOnly files.now file → Converts file result }

    // The bytes of the design, read again, are a 1993 text in which nothing is refused, and they are laid out as tokens are.
    ensures in_93 { IfOk result (λ c. IsIn93 c.design) }
    ensures laid_out { IfOk result (λ c. IsLaidOut c.design) }

    // What ties the bytes to the file, for every top; and there are tops.
    ensures tops { (file : Selected) → IsOnly files.now file → IfOk result (λ c. HaveTops file c.design) }
    ensures whole_map { (file : Selected) → IsOnly files.now file → IfOk result (λ c. HasWholeMap file c.design c.map.rows) }
    ensures interface { (file : Selected) → IsOnly files.now file → IfOk result (λ c. KeepsInterface file c.design) }
    ensures same_run { (file : Selected) → IsOnly files.now file → IfOk result (λ c. KeepsRun file c.design c.map.rows) }
    ensures same_traces { (file : Selected) → IsOnly files.now file → IfOk result (λ c. ShowsTheSame file c.design) }
{
    convert_file(alloc, &files[0])
}

/// A file has one conversion alone, so what `convert` answers is determined, unless memory runs out.
pub fn one_conversion()
    ensures { HasOneConversion }
{}

fn convert_file(alloc: Global, file: &Selected) -> Result<Converted, ConvertEnd>
    requires { ColumnsFit file.now }
    ensures { Converts file.now result }
{
    let design = accept19(alloc, file)?;
    match written(alloc, &design) {
        Ok(converted) => Ok(converted),
        Err(_) => Err(ConvertEnd::Memory),
    }
}

// What is written for a tree. An entity and its architecture are two design units.
fn written(alloc: Global, design: &Design19) -> Result<Converted, AllocError>
    ensures { IfOk result (IsWritten design.now) }
{
    let map = map_of(alloc, design)?;
    let lowered = lower(alloc, design)?;
    let tokens = derive93(alloc, &lowered)?;
    let text = layout(alloc, tokens.as_slice())?;
    Ok(Converted {
        design: Bytes::of(text),
        map,
        units: 2,
    })
}
