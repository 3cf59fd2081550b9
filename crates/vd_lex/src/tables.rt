//! The reserved words and the marks of a revision, found by their text.

ghost use Rattle.std.specs.Prelude.{◌≡◌, [], map, IfOk};
ghost use Rattle.std.specs.Str.{bytes_eq};
ghost use Rattle.indexmap.specs.IndexSet.{insert_all};
ghost use Rattle.vd_trees.specs.Identifiers.{place_among};
ghost use Rattle.vd_trees.specs.Words.{reserved_words};
ghost use Rattle.vd_tokens.specs.Marks.{marks};

use indexmap::IndexSet;
use std::alloc::{AllocError, Global};
use vd_tokens::kinds::{MARKS_OF_1993, WORDS_OF_1993};
use vd_tokens::spellings::MARKS;
use vd_tokens::words::WORDS;
use vd_trees::Revision;

/// The reserved words of a revision, to be looked up.
#[derive(Drop)]
pub struct ReservedWords {
    pub revision: Revision,
    set: IndexSet<&'static [u8]>,
    ghost are_the_words: { map (λ w. w.now) set.keys ≡ reserved_words revision },
}

/// The marks of a revision, to be looked up.
#[derive(Drop)]
pub struct MarkTable {
    pub revision: Revision,
    set: IndexSet<&'static [u8]>,
    ghost are_the_marks: { map (λ w. w.now) set.keys ≡ marks revision },
}

/// A set of these texts.
fn set_of(alloc: Global, words: &[&'static str]) -> Result<IndexSet<&'static [u8]>, AllocError>
    ensures { IfOk result
        (λ s. map (λ w. w.now) s.keys ≡ insert_all bytes_eq [] (map (λ w. w.now) words.now)) }
{
    let mut set = IndexSet::new(alloc);
    for word in words {
        set.insert(word.as_bytes())?;
    }
    Ok(set)
}

impl ReservedWords {
    /// The table, which is built once for a text.
    pub fn new(alloc: Global, revision: Revision) -> Result<ReservedWords, AllocError>
        ensures { IfOk result (λ w. w.revision ≡ revision) }
    {
        match revision {
            Revision::V2019 => {
                let set = set_of(alloc, &WORDS)?;
                Ok(ReservedWords { revision, set })
            }
            Revision::V1993 => {
                let set = set_of(alloc, &WORDS[..WORDS_OF_1993 as usize])?;
                Ok(ReservedWords { revision, set })
            }
        }
    }

    /// The number of a word that is in lower case, if it is reserved.
    pub fn number_of(&self, word: &[u8]) -> Option<u16>
        ensures { result ≡ place_among (reserved_words self.now.revision) word.now }
    {
        match self.set.get_index_of(word) {
            Some(n) => Some(n as u16),
            None => None,
        }
    }
}

impl MarkTable {
    /// The table, which is built once for a text.
    pub fn new(alloc: Global, revision: Revision) -> Result<MarkTable, AllocError>
        ensures { IfOk result (λ w. w.revision ≡ revision) }
    {
        match revision {
            Revision::V2019 => {
                let set = set_of(alloc, &MARKS)?;
                Ok(MarkTable { revision, set })
            }
            Revision::V1993 => {
                let set = set_of(alloc, &MARKS[..MARKS_OF_1993 as usize])?;
                Ok(MarkTable { revision, set })
            }
        }
    }

    /// The number of a mark, if it is one.
    pub fn number_of(&self, mark: &[u8]) -> Option<u16>
        ensures { result ≡ place_among (marks self.now.revision) mark.now }
    {
        match self.set.get_index_of(mark) {
            Some(n) => Some(n as u16),
            None => None,
        }
    }
}
