//! Texts with what is printed for them. In front of each stands a line `@ NAME`; the print stands behind a line `=>`, and is the text
//! itself where there is none.

use crate::printing::printed;
use std::alloc::{AllocError, Global};
use std::str;

/// A text, its name, and what is to be printed.
#[derive(Drop)]
struct Case {
    name: Vec<u8>,
    text: Vec<u8>,
    wanted: Option<Vec<u8>>,
}

/// The cases of a file.
fn cases_of(alloc: Global, bytes: &[u8]) -> Result<Vec<Case>, AllocError> {
    let whole = bytes.strip_suffix(b"\n".as_slice()).unwrap_or(bytes);
    let mut cases = Vec::new(alloc);
    for line in whole.split(|b| *b == b'\n') {
        if let Some(name) = line.strip_prefix(b"@ ".as_slice()) {
            let mut case = Case {
                name: Vec::new(alloc),
                text: Vec::new(alloc),
                wanted: None,
            };
            case.name.extend_from_slice(name)?;
            cases.push(case)?;
        } else if let Some(case) = cases.last_mut() {
            add_line(alloc, case, line)?;
        }
    }
    Ok(cases)
}

/// One more line of a case.
fn add_line(alloc: Global, case: &mut Case, line: &[u8]) -> Result<(), AllocError> {
    if line == b"=>".as_slice() {
        case.wanted = Some(Vec::new(alloc));
        return Ok(());
    }
    let part = match &mut case.wanted {
        Some(wanted) => wanted,
        None => &mut case.text,
    };
    part.extend_from_slice(line)?;
    part.push(b'\n')?;
    Ok(())
}

/// Says which texts are printed otherwise, and how many there are.
pub fn check_cases(rt: HostRuntime, file: &str, bytes: &[u8]) -> anyhow::Result<()> {
    let cases = cases_of(rt.alloc(), bytes)?;
    let mut wrong: usize = 0;
    for case in &cases {
        let wanted = match &case.wanted {
            Some(wanted) => wanted,
            None => &case.text,
        };
        let given = printed(rt.alloc(), &case.text)?;
        if given.as_ref() != Some(wanted) {
            wrong = wrong.saturating_add(1);
            let name = str::from_utf8(&case.name).unwrap_or("");
            println!(rt; "{file}: {name} is printed otherwise")?;
        }
    }
    let count = cases.len();
    println!(rt; "{file}: {count} texts, {wrong} printed otherwise")?;
    Ok(())
}
