//! Reads a text of revision 1993 and prints it, for measurements. The words are how often it is printed, and the file.

ghost use Rattle.std.specs.Prelude.{◌<◌, length};

use anyhow::bail;
use std::alloc::{AllocError, Global};
use std::fs;
use vd_directives::plain::plain;
use vd_forms::Design93;
use vd_grammar93::read93;
use vd_lex::lex93;
use vd_print93::print;

/// The tree of a text, if it has one.
fn read(alloc: Global, bytes: &[u8]) -> Result<Option<Design93>, AllocError>
    requires { length bytes.now < 2147483648 }
{
    let text = plain(alloc, 0, bytes)?;
    let Ok(tokens) = lex93(alloc, &text) else {
        return Ok(None);
    };
    match read93(alloc, &tokens) {
        Ok(design) => Ok(Some(design)),
        Err(_) => Ok(None),
    }
}

/// Runs the bench on its words.
pub fn run(rt: HostRuntime, words: &[String]) -> anyhow::Result<()> {
    let [count, name] = words else {
        bail!("the words are a number and a file");
    };
    let count: u32 = count.parse()?;
    let bytes = fs::read(&rt, name)?;
    if bytes.len() >= 1 << 31 {
        bail!("the file is too long");
    }
    let Some(design) = read(rt.alloc(), &bytes)? else {
        bail!("the file isn't read");
    };
    let mut length = 0;
    for _turn in 0..count {
        length = print(rt.alloc(), &design)?.len();
    }
    println!(rt; "{length} bytes")?;
    Ok(())
}
