//! A tray of real files: the trusted edge of the program.

ghost use Rattle.std.specs.Prelude.{◌≡◌, ◌<◌, ◌≤◌, ℕ, List, None, length, true, false, is_some, IfOk, OnOk, OnErr, IsTrue, IsFalse};
ghost use Rattle.vd_bytes.specs.declared.channels.Channel.{Channel};
ghost use Rattle.vd_bytes.specs.Begun.{has_begun};
ghost use Rattle.vd_bytes.specs.Trays.{Rose, after_fault};
ghost use Rattle.vd_file_tray.specs.FileTray.{after_write, IsAfterWriteFault};

use std::fs::File;
use std::io::{Read, Write};
use std::marker::Model;
use std::os::fd::AsFd;
use vd_bytes::{Channel, Failed, Tray};

/// Where Design goes, in the current folder.
const DESIGN_FILE: &str = "vdown.vhd";

/// Where Map goes, in the current folder.
const MAP_FILE: &str = "vdown.map.json";

/// Reads real files by name. Writes Design and Map as files of the current folder, each created, or emptied where it
/// exists, at its first write, and Console on the standard output. What the files hold and what was written isn't
/// told, but whether each file was created, or emptied, is. One count stands for the faults in opening and reading files of every name. A standard output that was closed
/// from the start is a fault, also where a file has taken its number since.
#[derive(Drop)]
pub struct FileTray {
    rt: HostRuntime,
    reading: Option<File>,
    design: Option<File>,
    map: Option<File>,
    has_console: bool,
    console_begun: bool,
    read_faults: u64,
    write_faults: u64,
}

impl Model for FileTray {
    ghost use Rattle.std.specs.Prelude.{is_some};
    ghost use Rattle.vd_file_tray.specs.FileTray.{FileState};

    ghost Value = { FileState };

    ghost view = { λ a. record {
      is_reading = is_some a.reading;
      begun = record {
        has_design = is_some a.design;
        has_map = is_some a.map;
        has_console = a.console_begun;
      };
      read_faults = a.read_faults;
      write_faults = a.write_faults;
    } };
}

impl FileTray {
    /// A tray of the program's files, made before any of them is opened: a file that is opened while the standard
    /// output is closed takes its number, and would get what is meant for Console. So it is asked here whether it is open.
    pub fn new(rt: HostRuntime) -> FileTray
        ensures none_open { IsFalse (⟦<FileTray as Tray>⟧.is_open result) }
        ensures none_begun { (to : Channel) → ⟦<FileTray as Tray>⟧.is_begun result to ≡ false }
        ensures no_read_fault { (name : List ℕ) → ⟦<FileTray as Tray>⟧.read_faults result name ≡ 0 }
        ensures no_write_fault { ⟦<FileTray as Tray>⟧.write_faults result ≡ 0 }
    {
        FileTray {
            rt,
            reading: None,
            design: None,
            map: None,
            has_console: rt.stdout().as_fd().try_clone_to_owned().is_ok(),
            console_begun: false,
            read_faults: 0,
            write_faults: 0,
        }
    }
}

impl Tray for FileTray {
    ghost files = { λ _. None };

    ghost is_open = { λ tray. tray.is_reading };

    ghost open_name = { λ _. None };

    ghost rest = { λ _. None };

    ghost written = { λ _ _. None };

    ghost is_begun = { λ tray. has_begun tray.begun };

    ghost read_faults = { λ tray _. tray.read_faults };

    ghost write_faults = { λ tray. tray.write_faults };

    /// A folder may be opened; reading it then fails.
    fn open_file(&mut self, name: &str) -> Result<(), Failed>
        ensures ok { OnOk result (self.new ≡ record self.old { is_reading = true }) }
        ensures err { OnErr result (self.new ≡ record self.old {
          is_reading = false;
          read_faults = after_fault self.old.read_faults;
        }) }
        ensures fault { OnErr result (Rose self.old.read_faults self.new.read_faults) }
    {
        match File::open(&self.rt, name) {
            Ok(file) => {
                self.reading = Some(file);
                Ok(())
            }
            Err(_) => {
                self.reading = None;
                self.read_faults = self.read_faults.saturating_add(1);
                Err(Failed)
            }
        }
    }

    /// Asks the system once.
    fn read(&mut self, into: &mut [u8]) -> Result<usize, Failed>
        ensures fits { IfOk result (λ n. n ≤ length into.new) }
        ensures not_open { IsFalse self.old.is_reading → result ≡ Ok 0 }
        ensures ok { OnOk result (self.new ≡ self.old) }
        ensures err { OnErr result (self.new ≡ record self.old { read_faults = after_fault self.old.read_faults }) }
        ensures fault { OnErr result (Rose self.old.read_faults self.new.read_faults) }
    {
        let Some(file) = &mut self.reading else {
            return Ok(0);
        };
        match file.read(into) {
            Ok(count) => Ok(count),
            Err(_) => {
                self.read_faults = self.read_faults.saturating_add(1);
                Err(Failed)
            }
        }
    }

    /// Asks the system once, and keeps nothing back.
    fn write(&mut self, to: Channel, piece: &[u8]) -> Result<usize, Failed>
        ensures fits { IfOk result (λ k. k ≤ length piece.now) }
        ensures moves { IfOk result (λ k. 0 < length piece.now → 0 < k) }
        ensures ok { OnOk result (self.new ≡ after_write self.old to) }
        ensures err { OnErr result (IsAfterWriteFault self.old to self.new) }
        ensures fault { OnErr result (Rose self.old.write_faults self.new.write_faults) }
    {
        let answer = match to {
            Channel::Design => write_file(&self.rt, &mut self.design, DESIGN_FILE, piece),
            Channel::Map => write_file(&self.rt, &mut self.map, MAP_FILE, piece),
            Channel::Console => write_console(
                &self.rt,
                self.has_console,
                &mut self.console_begun,
                piece,
            ),
        };
        if answer.is_err() {
            self.write_faults = self.write_faults.saturating_add(1);
        }
        answer
    }
}

// Writes some first bytes of the piece on the file, which is created, or emptied, where it isn't open yet.
fn write_file(
    rt: &HostRuntime,
    file: &mut Option<File>,
    name: &str,
    piece: &[u8],
) -> Result<usize, Failed>
    ensures fits { IfOk result (λ k. k ≤ length piece.now) }
    ensures moves { IfOk result (λ k. 0 < length piece.now → 0 < k) }
    ensures begun { OnOk result (IsTrue (is_some file.new)) }
    ensures stays { IsTrue (is_some file.old) → IsTrue (is_some file.new) }
{
    if file.is_none() {
        match File::create(rt, name) {
            Ok(created) => *file = Some(created),
            Err(_) => return Err(Failed),
        }
    }
    match file {
        Some(file) => write_out(file, piece),
        None => Err(Failed),
    }
}

// Writes some first bytes of the piece on the standard output, and fails where it was closed from the start.
fn write_console(
    rt: &HostRuntime,
    is_open: bool,
    begun: &mut bool,
    piece: &[u8],
) -> Result<usize, Failed>
    ensures fits { IfOk result (λ k. k ≤ length piece.now) }
    ensures moves { IfOk result (λ k. 0 < length piece.now → 0 < k) }
    ensures begun { OnOk result (IsTrue begun.new) }
    ensures stays { IsTrue begun.old → IsTrue begun.new }
{
    if !is_open {
        return Err(Failed);
    }
    let count = write_out(&mut rt.stdout(), piece)?;
    *begun = true;
    Ok(count)
}

// Writes some first bytes of the piece.
fn write_out<W: Write>(out: &mut W, piece: &[u8]) -> Result<usize, Failed>
    ensures fits { IfOk result (λ k. k ≤ length piece.now) }
    ensures moves { IfOk result (λ k. 0 < length piece.now → 0 < k) }
{
    match out.write(piece) {
        Ok(count) if count > 0 || piece.is_empty() => Ok(count),
        _ => Err(Failed),
    }
}
