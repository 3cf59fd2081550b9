//! Files in, one design out.

ghost use Rattle.std.specs.Prelude.{◌≡◌, ◌≤◌, length, sum_by, MatchResult, IfOk};
ghost use Rattle.std.specs.List.{AllByRecursion};
ghost use Rattle.vd_bytes.specs.declared.answers.Limit.TheVariants as limits;
ghost use Rattle.vd_design_files.specs.Files.{IsAnswer, IsAnswerOfTexts, IsAnswerOfTokens, holds};
ghost use Rattle.vd_design_files.specs.Laws.{IsEnd};
ghost use Rattle.vd_directives.specs.Lines.{ColumnsFit};
ghost use Rattle.vd_forest.specs.Forest.{tree_count};
ghost use Rattle.vd_tokens.specs.Spellings.{EndsOnce, IsPossible};
ghost use Rattle.vd_trees.specs.declared.revision.Revision.TheVariants.{V2019};

use crate::answers::{DesignEnd, DesignFiles, Warnings};
use crate::lexing::{has_many_tokens, lexed, warnings_of};
use crate::reading::{count_units, joined_design, read};
use crate::selecting::selected;
use std::alloc::Global;
use vd_bytes::{Bytes, Limit};
use vd_directives::selected::Selected;
use vd_directives::settings::Settings;
use vd_tokens::Tokens;

/// How many units all files may have.
const MOST: u32 = 4096;

/// The design of some token lists with the warnings of their texts.
fn design_of_tokens(
    alloc: Global,
    lists: Vec<Tokens>,
    warnings: Warnings,
) -> Result<DesignFiles, DesignEnd>
    requires end_once { AllByRecursion EndsOnce lists.items }
    requires possible { AllByRecursion (AllByRecursion (IsPossible V2019)) lists.items }
    ensures exact { MatchResult result (λ files. IsAnswerOfTokens warnings lists.items (holds files.design files.warnings)) (IsEnd (IsAnswerOfTokens warnings lists.items)) }
    ensures counted { IfOk result (λ files. files.units ≡ tree_count files.design) }
{
    if has_many_tokens(lists.as_slice()) {
        return Err(DesignEnd::Limit(Limit::Tokens));
    }
    let designs = read(alloc, lists.as_slice())?;
    drop(lists);
    let design = joined_design(alloc, designs)?;
    let units = count_units(MOST + 1, &design.units());
    if units > MOST {
        return Err(DesignEnd::Limit(Limit::Units));
    }
    Ok(DesignFiles {
        design,
        units,
        warnings,
    })
}

/// The design of some texts with their warnings.
fn design_of_texts(alloc: Global, texts: Vec<Selected>) -> Result<DesignFiles, DesignEnd>
    requires { AllByRecursion ColumnsFit texts.items }
    ensures exact { MatchResult result (λ files. IsAnswerOfTexts texts.items (holds files.design files.warnings)) (IsEnd (IsAnswerOfTexts texts.items)) }
    ensures counted { IfOk result (λ files. files.units ≡ tree_count files.design) }
{
    let lists = lexed(alloc, texts.as_slice())?;
    let warnings = warnings_of(alloc, texts)?;
    design_of_tokens(alloc, lists, warnings)
}

/// The design of files with these contents, in their order. A place has the number of its file, from 0. The tool type of the settings is what
/// `TOOL_TYPE` is in directives. Each step (directives, tokens, the limit of tokens, grammar, the limit of units) is made for all files before the next
/// one, and the first file whose step ends is named.
pub fn design_of_files(
    alloc: Global,
    settings: &Settings,
    contents: &[Bytes],
) -> Result<DesignFiles, DesignEnd>
    requires few { length contents.now ≤ 64 }
    requires within { sum_by length contents.now ≤ 8388608 }
    ensures exact { MatchResult result (λ files. IsAnswer settings.now.tool_type contents.now (holds files.design files.warnings))
        (IsEnd (IsAnswer settings.now.tool_type contents.now)) }
    ensures counted { IfOk result (λ files. files.units ≡ tree_count files.design) }
{
    let texts = selected(alloc, settings, contents)?;
    design_of_texts(alloc, texts)
}
