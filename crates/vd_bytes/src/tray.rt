//! The files and the channels that a call is handed.

ghost use Rattle.std.specs.Prelude.{◌≡◌, ℕ, Bool, List, [], ◌<◌, ◌≤◌, length, take, drop, Option, option_map, IfSome, IfOk, OnOk, OnErr, IsTrue, IsFalse};
ghost use Rattle.vd_bytes.specs.declared.channels.Channel.{Channel};
ghost use Rattle.vd_bytes.specs.Trays.{content_of, Rose, RoseAt, SameCounts, TakesFront, Appends, OnlyReads, OnlyWrites};

use crate::channels::{Channel, Failed};

/// Files that are opened by name and read, one at a time, and three channels that are written. A tray
/// may keep to itself what its files hold and what was written, as a tray of real files does.
pub trait Tray {
    /// The files' names and contents, where they are told. The first file of a name counts.
    ghost files: { Self → Option (List (List ℕ × List ℕ)) };

    /// Whether a file is open.
    ghost is_open: { Self → Bool };

    /// The name of the open file, where it is told.
    ghost open_name: { Self → Option (List ℕ) };

    /// What is left of the open file, where it is told.
    ghost rest: { Self → Option (List ℕ) };

    /// The bytes out on each channel, where they are told.
    ghost written: { Self → Channel → Option (List ℕ) };

    /// Whether a channel was begun: a piece was written to it in the tray's life, perhaps an empty one.
    /// It is told of every tray, as an empty piece may create a file, or empty one.
    ghost is_begun: { Self → Channel → Bool };

    /// For every name, how many faults came in opening and reading that file.
    ghost read_faults: { Self → List ℕ → ℕ };

    /// How many faults came in writing.
    ghost write_faults: { Self → ℕ };

    /// Opens the file of that name, at its front. A file that was open before isn't any more, also
    /// where this fails.
    fn open_file(&mut self, name: &str) -> Result<(), Failed>
        ensures opened { OnOk result (IsTrue (is_open self.new)) }
        ensures named { OnOk result (IfSome (open_name self.new) (λ opened. opened ≡ name.now)) }
        ensures found { OnOk result (IfSome (files self.old)
            (λ told. rest self.new ≡ Some (content_of told name.now))) }
        ensures no_fault { OnOk result (SameCounts (read_faults self.old) (read_faults self.new)) }

        ensures fault { OnErr result
            (Rose (read_faults self.old name.now) (read_faults self.new name.now)) }
        ensures closed { OnErr result (IsFalse (is_open self.new)) }

        ensures only_reads { OnlyReads files written is_begun read_faults write_faults
            self.old self.new };

    /// Takes bytes off the front of what is left of the open file, and answers how many.
    fn read(&mut self, into: &mut [u8]) -> Result<usize, Failed>
        ensures fits { IfOk result (λ n. n ≤ length into.new) }
        ensures taken { IfOk result (λ n. IfSome (rest self.old)
            (λ left. TakesFront n left into.old into.new)) }
        ensures left { IfOk result (λ n. rest self.new ≡ option_map (drop n) (rest self.old)) }
        ensures not_open { IsFalse (is_open self.old) → result ≡ Ok 0 }
        ensures ended { IsTrue (is_open self.old) → 0 < length into.new → result ≡ Ok 0
            → IfSome (rest self.old) (λ left. left ≡ []) }
        ensures no_fault { OnOk result (SameCounts (read_faults self.old) (read_faults self.new)) }

        ensures fault { OnErr result
            (RoseAt (open_name self.old) (read_faults self.old) (read_faults self.new)) }
        ensures kept { OnErr result (rest self.new ≡ rest self.old) }

        ensures same_open { is_open self.new ≡ is_open self.old }
        ensures same_name { open_name self.new ≡ open_name self.old }
        ensures only_reads { OnlyReads files written is_begun read_faults write_faults
            self.old self.new };

    /// Writes some first bytes of the piece on the channel, and answers how many. Where this fails, the
    /// channel may be begun or not, but one that was begun before still is.
    fn write(&mut self, to: Channel, piece: &[u8]) -> Result<usize, Failed>
        ensures fits { IfOk result (λ k. k ≤ length piece.now) }
        ensures moves { IfOk result (λ k. 0 < length piece.now → 0 < k) }
        ensures appended { IfOk result (λ k.
            Appends (written self.old to) (written self.new to) (take k piece.now)) }
        ensures begun { OnOk result (IsTrue (is_begun self.new to)) }
        ensures no_fault { OnOk result (write_faults self.new ≡ write_faults self.old) }

        ensures fault { OnErr result (Rose (write_faults self.old) (write_faults self.new)) }
        ensures kept { OnErr result (written self.new to ≡ written self.old to) }

        ensures only_writes { OnlyWrites files is_open open_name rest written is_begun read_faults
            write_faults to self.old self.new };
}
