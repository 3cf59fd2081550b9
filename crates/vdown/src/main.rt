//! The program: its words and real files in, a status out.
#![tactic(auto)]

use std::env;
use std::io::ErrorKind;
use std::process::ExitCode;
use vd_command::vdown;
use vd_file_tray::FileTray;

/// Want of memory.
const MEMORY: u8 = 5;

/// Why there are no words.
enum NoWords {
    NotText,
    Memory,
}

fn main(rt: HostRuntime) -> ExitCode {
    let mut tray = FileTray::new(rt);
    let words = match words_of(&rt) {
        Ok(words) => words,
        // No words at all aren't taken either.
        Err(NoWords::NotText) => Vec::new(rt.alloc()),
        Err(NoWords::Memory) => return ExitCode::from(MEMORY),
    };
    ExitCode::from(vdown(rt.alloc(), &words, &mut tray))
}

// The arguments after the program's name.
fn words_of(rt: &HostRuntime) -> Result<Vec<String>, NoWords> {
    let words = match env::args(rt) {
        Ok(words) => words,
        Err(e) if e.kind() == ErrorKind::InvalidData => return Err(NoWords::NotText),
        Err(_) => return Err(NoWords::Memory),
    };
    match words.skip(1).collect(rt.alloc()) {
        Ok(words) => Ok(words),
        Err(_) => Err(NoWords::Memory),
    }
}
