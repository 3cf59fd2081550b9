//! A tray in memory on which no call fails.

ghost use Rattle.std.specs.Prelude.{◌≡◌, ℕ, [], false, None, Some, length, min, is_some, unwrap_or, IfOk, IfSome, IsOk, IsFalse, vec_len};
ghost use Rattle.vd_bytes.specs.declared.channels.Channel.{Channel};
ghost use Rattle.vd_bytes.specs.Begun.{has_begun, after_begin};
ghost use Rattle.vd_bytes.specs.Trays.{TakesFront};
ghost use Rattle.vd_bytes.specs.Folder.{paired, after_open, after_taking};

use crate::begun::BegunChannels;
use crate::channels::{Channel, Failed};
use crate::folder::Folder;
use crate::tray::Tray;
use std::alloc::{AllocError, Global};
use std::marker::Model;

/// Files in memory that are read without a fault. A name that no file has is opened as an empty
/// file, and what is written is dropped.
#[derive(Debug, Drop)]
pub struct SureTray {
    folder: Folder,
    begun: BegunChannels,
}

impl Model for SureTray {
    ghost use Rattle.vd_bytes.specs.SureTray.{SureState};

    ghost Value = { SureState };

    ghost view = { λ a. record { files = a.folder; begun = a.begun } };
}

impl SureTray {
    /// A tray of these files, none of them open.
    pub fn new(
        alloc: Global,
        names: Vec<String>,
        contents: Vec<Vec<u8>>,
    ) -> Result<SureTray, AllocError>
        requires { vec_len names ≡ vec_len contents }
        ensures told { IfOk result (λ tray. ⟦<SureTray as Tray>⟧.files tray
            ≡ Some (paired names.items contents.items)) }
        ensures none_open { IfOk result (λ tray. IsFalse (⟦<SureTray as Tray>⟧.is_open tray)) }
        ensures nothing_begun { IfOk result (λ tray.
            (to : Channel) → ⟦<SureTray as Tray>⟧.is_begun tray to ≡ false) }
    {
        let folder = Folder::new(alloc, names, contents)?;
        Ok(SureTray {
            folder,
            begun: BegunChannels::none(),
        })
    }
}

impl Tray for SureTray {
    ghost files = { λ tray. Some tray.files.told };

    ghost is_open = { λ tray. is_some tray.files.left };

    ghost open_name = { λ _. None };

    ghost rest = { λ tray. tray.files.left };

    ghost written = { λ _ _. None };

    ghost is_begun = { λ tray. has_begun tray.begun };

    ghost read_faults = { λ _ _. 0 };

    ghost write_faults = { λ _. 0 };

    /// Opens the file of that name, or an empty file where no file has it.
    fn open_file(&mut self, name: &str) -> Result<(), Failed>
        ensures sure { IsOk result }
        ensures after { self.new
            ≡ record self.old { files = after_open self.old.files name.now } }
    {
        self.folder.open(name);
        Ok(())
    }

    /// Takes as many bytes as are left and have room.
    fn read(&mut self, into: &mut [u8]) -> Result<usize, Failed>
        ensures count { result ≡ Ok (min (length (unwrap_or self.old.files.left [])) (length into.new)) }
        ensures buffer { IfOk result (λ n. IfSome self.old.files.left
            (λ left. TakesFront n left into.old into.new)) }
        ensures after { IfOk result (λ n. self.new
            ≡ record self.old { files = after_taking n self.old.files }) }
    {
        Ok(self.folder.read(into, usize::MAX))
    }

    /// Drops the whole piece.
    fn write(&mut self, to: Channel, piece: &[u8]) -> Result<usize, Failed>
        ensures count { result ≡ Ok (length piece.now) }
        ensures after { self.new ≡ record self.old { begun = after_begin self.old.begun to } }
    {
        self.begun.begin(to);
        Ok(piece.len())
    }
}
