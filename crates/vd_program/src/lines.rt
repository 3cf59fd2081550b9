//! The lines of the answers that the modes share.

ghost use Rattle.std.specs.Prelude.{◌≡◌, ◌<◌, ◌↔◌, IfOk, IsTrue, string_bytes};
ghost use Rattle.vd_bytes.specs.declared.answers.Limit.TheVariants as limits;
ghost use Rattle.vd_program.specs.Dues.{read_fault, place_text, rule_text, refusal, limit_name, limit_number, limit_passed};

use std::alloc::{AllocError, Global};
use vd_bytes::{Limit, Refused};

/// The line of words that aren't taken.
pub const REFUSED_WORDS: &[u8] = b"refused words\n";

/// `read fault FILE`
pub fn read_fault_line(alloc: Global, file: &str) -> Result<String, AllocError>
    ensures { IfOk result (λ line. string_bytes line ≡ (read_fault file.now).console) }
{
    format!(in alloc; "read fault {file}\n")
}

/// `FILE:LINE:COLUMN: refused RULE`
pub fn refusal_line(alloc: Global, file: &str, refused: &Refused) -> Result<String, AllocError>
    ensures { IfOk result (λ line. string_bytes line ≡ (refusal file.now refused.now).console) }
{
    let rule = rule_text(alloc, refused)?;
    format!(in alloc; "{file}:{rule}\n")
}

fn rule_text(alloc: Global, refused: &Refused) -> Result<String, AllocError>
    ensures { IfOk result (λ text. string_bytes text ≡ rule_text refused.now) }
{
    let place = place_text(alloc, refused)?;
    let rule = refused.rule;
    format!(in alloc; "{place}: refused {rule}")
}

fn place_text(alloc: Global, refused: &Refused) -> Result<String, AllocError>
    ensures { IfOk result (λ text. string_bytes text ≡ place_text refused.now) }
{
    let line = refused.place.line;
    let column = refused.place.column;
    format!(in alloc; "{line}:{column}")
}

/// `limit NAME NUMBER`
pub fn limit_line(alloc: Global, limit: Limit) -> Result<String, AllocError>
    ensures { IfOk result (λ line. string_bytes line ≡ (limit_passed limit).console) }
{
    let name = limit_name(limit);
    let number = limit_number(limit);
    format!(in alloc; "limit {name} {number}\n")
}

/// Whether so many units are more than the program takes, which `limit units 4096` says.
pub fn too_many_units(count: usize) -> bool
    ensures { IsTrue result ↔ limit_number limits.Units < count }
{
    count > 4096
}

fn limit_name(limit: Limit) -> &'static str
    ensures { result.now ≡ limit_name limit }
{
    match limit {
        Limit::Files => "files",
        Limit::Input => "input",
        Limit::Tokens => "tokens",
        Limit::Nesting => "nesting",
        Limit::Units => "units",
        Limit::Nodes => "nodes",
        Limit::Nesting93 => "nesting93",
        Limit::Output => "output",
        Limit::Signals => "signals",
        Limit::Processes => "processes",
        Limit::Depth => "depth",
    }
}

fn limit_number(limit: Limit) -> u32
    ensures { result ≡ limit_number limit }
{
    match limit {
        Limit::Files => 64,
        Limit::Input => 8_388_608,
        Limit::Tokens => 2_000_000,
        Limit::Nesting => 200,
        Limit::Units => 4096,
        Limit::Nodes => 4_000_000,
        Limit::Nesting93 => 2000,
        Limit::Output => 67_108_864,
        Limit::Signals => 1_000_000,
        Limit::Processes => 100_000,
        Limit::Depth => 64,
    }
}
