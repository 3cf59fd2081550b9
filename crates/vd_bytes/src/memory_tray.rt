//! A tray in memory that keeps what is written, and on which chosen calls fail.

ghost use Rattle.std.specs.Prelude.{◌≡◌, ◌+◌, ◌<◌, ◌≤◌, ◌↔◌, ◌⊎◌, ℕ, List, [], Some, false, length, take, min, max, is_some, unwrap_or, IfOk, IfSome, IsErr, IsSome, OnOk, OnErr, IsFalse, vec_len};
ghost use Rattle.vd_bytes.specs.Trays.{has_file, TakesFront, Rose, after_fault};
ghost use Rattle.vd_bytes.specs.Begun.{has_begun, after_begin};
ghost use Rattle.vd_bytes.specs.Calls.{before_calls, after_call, IsDue};
ghost use Rattle.vd_bytes.specs.declared.channels.Channel.{Channel};
ghost use Rattle.vd_bytes.specs.Folder.{paired, after_open, after_close, after_taking};
ghost use Rattle.vd_bytes.specs.Outs.{out_of, after_append};

use crate::begun::BegunChannels;
use crate::calls::Calls;
use crate::channels::{Channel, Failed};
use crate::folder::Folder;
use crate::outs::Outs;
use crate::tray::Tray;
use std::alloc::{AllocError, Global};
use std::marker::Model;

/// Files in memory, and channels that keep what is written. The calls of chosen numbers fail. So
/// does a call that opens a name that no file has, and one that writes and finds no memory. Each
/// such fault is counted, those of all names together.
#[derive(Debug, Drop)]
pub struct MemoryTray {
    folder: Folder,
    outs: Outs,
    begun: BegunChannels,
    opens: Calls,
    reads: Calls,
    writes: Calls,
    read_faults: u64,
    write_faults: u64,
    most: usize,
}

impl Model for MemoryTray {
    ghost use Rattle.vd_bytes.specs.MemoryTray.{MemoryState};

    ghost Value = { MemoryState };

    ghost view = { λ a. record {
      files = a.folder;
      out = a.outs;
      begun = a.begun;
      opens = a.opens;
      reads = a.reads;
      writes = a.writes;
      read_faults = a.read_faults;
      write_faults = a.write_faults;
      most = a.most;
    } };
}

impl MemoryTray {
    /// A tray of these files, none of them open. The three lists hold the numbers, from 1, of the
    /// calls of `open_file`, of `read` and of `write` that fail.
    pub fn new(
        alloc: Global,
        names: Vec<String>,
        contents: Vec<Vec<u8>>,
        opens: Vec<u64>,
        reads: Vec<u64>,
        writes: Vec<u64>,
    ) -> Result<MemoryTray, AllocError>
        requires { vec_len names ≡ vec_len contents }
        ensures told { IfOk result (λ tray. ⟦<MemoryTray as Tray>⟧.files tray
            ≡ Some (paired names.items contents.items)) }
        ensures none_open { IfOk result (λ tray. IsFalse (⟦<MemoryTray as Tray>⟧.is_open tray)) }
        ensures nothing_written { IfOk result (λ tray.
            (to : Channel) → ⟦<MemoryTray as Tray>⟧.written tray to ≡ Some []) }
        ensures nothing_begun { IfOk result (λ tray.
            (to : Channel) → ⟦<MemoryTray as Tray>⟧.is_begun tray to ≡ false) }
        ensures no_read_fault { IfOk result (λ tray.
            (name : List ℕ) → ⟦<MemoryTray as Tray>⟧.read_faults tray name ≡ 0) }
        ensures no_write_fault { IfOk result (λ tray.
            ⟦<MemoryTray as Tray>⟧.write_faults tray ≡ 0) }

        ensures failing_opens { IfOk result (λ tray. tray.opens ≡ before_calls opens.items) }
        ensures failing_reads { IfOk result (λ tray. tray.reads ≡ before_calls reads.items) }
        ensures failing_writes { IfOk result (λ tray. tray.writes ≡ before_calls writes.items) }
        ensures not_short { IfOk result (λ tray. tray.most ≡ usize.MAX) }
    {
        let folder = Folder::new(alloc, names, contents)?;
        Ok(MemoryTray {
            folder,
            outs: Outs::new(alloc),
            begun: BegunChannels::none(),
            opens: Calls::new(opens),
            reads: Calls::new(reads),
            writes: Calls::new(writes),
            read_faults: 0,
            write_faults: 0,
            most: usize::MAX,
        })
    }

    /// What was written on a channel.
    pub fn out(&self, to: Channel) -> &[u8]
        ensures { ⟦<MemoryTray as Tray>⟧.written self.now to ≡ Some result.now }
    {
        self.outs.get(to)
    }

    /// Whether a piece was written on a channel, perhaps an empty one.
    pub fn is_begun(&self, to: Channel) -> bool
        ensures { result ≡ ⟦<MemoryTray as Tray>⟧.is_begun self.now to }
    {
        self.begun.has(to)
    }

    /// From now on a call of `read` or of `write` takes at most that many bytes, and at least 1.
    pub fn short(&mut self, most: usize)
        ensures { self.new ≡ record self.old { most = most } }
    {
        self.most = most;
    }
}

impl Tray for MemoryTray {
    ghost files = { λ tray. Some tray.files.told };

    ghost is_open = { λ tray. is_some tray.files.left };

    ghost open_name = { λ tray. tray.files.name };

    ghost rest = { λ tray. tray.files.left };

    ghost written = { λ tray to. Some (out_of tray.out to) };

    ghost is_begun = { λ tray. has_begun tray.begun };

    ghost read_faults = { λ tray _. tray.read_faults };

    ghost write_faults = { λ tray. tray.write_faults };

    /// Fails where this call is one that is to fail, and where no file has the name.
    fn open_file(&mut self, name: &str) -> Result<(), Failed>
        ensures fails { IsErr result
            ↔ (IsDue self.old.opens ⊎ IsFalse (has_file self.old.files.told name.now)) }
        ensures ok { OnOk result (self.new ≡ record self.old {
          files = after_open self.old.files name.now;
          opens = after_call self.old.opens;
        }) }
        ensures err { OnErr result (self.new ≡ record self.old {
          files = after_close self.old.files;
          opens = after_call self.old.opens;
          read_faults = after_fault self.old.read_faults;
        }) }
        ensures fault { OnErr result (Rose self.old.read_faults self.new.read_faults) }
    {
        let fails = self.opens.next_fails();
        let found = self.folder.open(name);
        if fails || !found {
            self.folder.close();
            self.read_faults = self.read_faults.saturating_add(1);
            return Err(Failed);
        }
        Ok(())
    }

    /// Fails where this call is one that is to fail and a file is open.
    fn read(&mut self, into: &mut [u8]) -> Result<usize, Failed>
        ensures fails { IsErr result ↔ (IsDue self.old.reads × IsSome self.old.files.left) }
        ensures count { IfOk result (λ n. n
            ≡ min (min (length (unwrap_or self.old.files.left [])) (length into.new)) (max self.old.most 1)) }
        ensures buffer { IfOk result (λ n. IfSome self.old.files.left
            (λ left. TakesFront n left into.old into.new)) }
        ensures ok { IfOk result (λ n. self.new ≡ record self.old {
          files = after_taking n self.old.files;
          reads = after_call self.old.reads;
        }) }
        ensures err { OnErr result (self.new ≡ record self.old {
          reads = after_call self.old.reads;
          read_faults = after_fault self.old.read_faults;
        }) }
        ensures fault { OnErr result (Rose self.old.read_faults self.new.read_faults) }
    {
        let fails = self.reads.next_fails();
        if fails && self.folder.is_open() {
            self.read_faults = self.read_faults.saturating_add(1);
            return Err(Failed);
        }
        Ok(self.folder.read(into, self.most.max(1)))
    }

    /// Fails where this call is one that is to fail, and where memory runs out.
    fn write(&mut self, to: Channel, piece: &[u8]) -> Result<usize, Failed>
        ensures fails { IsDue self.old.writes → IsErr result }
        ensures count { IfOk result (λ k. k ≡ min (length piece.now) (max self.old.most 1)) }
        ensures ok { IfOk result (λ k. self.new ≡ record self.old {
          out = after_append self.old.out to (take k piece.now);
          begun = after_begin self.old.begun to;
          writes = after_call self.old.writes;
        }) }
        ensures err { OnErr result (self.new ≡ record self.old {
          writes = after_call self.old.writes;
          write_faults = after_fault self.old.write_faults;
        }) }
        ensures fault { OnErr result (Rose self.old.write_faults self.new.write_faults) }
    {
        let fails = self.writes.next_fails();
        let k = piece.len().min(self.most.max(1));
        if fails || self.outs.append(to, &piece[..k]).is_err() {
            self.write_faults = self.write_faults.saturating_add(1);
            return Err(Failed);
        }
        self.begun.begin(to);
        Ok(k)
    }
}
