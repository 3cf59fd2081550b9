//! Lexes a file, for measurements: `2019 FILE` or `1993 FILE`, and behind them `show` to print each token.

ghost use Rattle.std.specs.Prelude.{◌<◌, ◌≤◌, length};

use anyhow::bail;
use std::fs;
use vd_bytes::Refusal;
use vd_directives::plain::plain;
use vd_lex::{Kind, Token, Tokens, lex19, lex93};

/// A token as a line: its kind, its number or bytes, and its place.
fn show(rt: HostRuntime, token: Token<'_>) -> anyhow::Result<()> {
    let name = match token.kind {
        Kind::Name => "Name",
        Kind::Number => "Number",
        Kind::Letter => "Letter",
        Kind::Quoted => "Quoted",
        Kind::Bits => "Bits",
        Kind::Word(_) => "Word",
        Kind::Mark(_) => "Mark",
        Kind::End => "End",
    };
    print!(rt; "{name} ")?;
    match token.kind {
        Kind::Word(n) => print!(rt; "{n}")?,
        Kind::Mark(n) => print!(rt; "{n}")?,
        _ => {
            for b in token.text {
                print!(rt; "{b:02x}")?;
            }
        }
    }
    let line = token.place.line;
    let column = token.place.column;
    println!(rt; " {line} {column}")?;
    Ok(())
}

fn show_all(rt: HostRuntime, tokens: &Tokens) -> anyhow::Result<()> {
    for i in 0..tokens.len() {
        show(rt, tokens.get(i))?;
    }
    Ok(())
}

/// Runs the bench on its words.
pub fn run(rt: HostRuntime, words: &[String]) -> anyhow::Result<()> {
    let (Some(revision), Some(name)) = (words.first(), words.get(1)) else {
        bail!("the words are 2019 or 1993, and a file");
    };
    let bytes = fs::read(&rt, name)?;
    if bytes.len() >= 1 << 31 {
        bail!("the file is too long");
    }
    let text = plain(rt.alloc(), 0, &bytes)?;
    let answer = if revision.as_str() == "1993" {
        lex93(rt.alloc(), &text)
    } else {
        lex19(rt.alloc(), &text)
    };
    match answer {
        Ok(tokens) => {
            if words.len() > 2 {
                show_all(rt, &tokens)?;
            }
            let count = tokens.len();
            println!(rt; "{count} tokens")?;
        }
        Err(Refusal::Refused(e)) => {
            let line = e.place.line;
            let column = e.place.column;
            let rule = e.rule;
            println!(rt; "refused {rule} {line} {column}")?;
        }
        Err(Refusal::Memory) => println!(rt; "no memory")?,
    }
    Ok(())
}
