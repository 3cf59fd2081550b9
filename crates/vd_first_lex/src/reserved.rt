//! The reserved words of a revision, found by their text.

ghost use Rattle.std.specs.Prelude.{◌≡◌, [], map, IfOk};
ghost use Rattle.std.specs.Str.{bytes_eq};
ghost use Rattle.indexmap.specs.IndexSet.{insert_all};
ghost use Rattle.vd_trees.specs.Identifiers.{place_among};
ghost use Rattle.vd_trees.specs.Words.{reserved_words};

use indexmap::IndexSet;
use std::alloc::{AllocError, Global};
use vd_trees::Revision;

/// The words in their order: those of revision 1993, and behind them those that revision 2019 adds.
pub(crate) static WORDS: [&str; 115] = [
    "abs",
    "access",
    "after",
    "alias",
    "all",
    "and",
    "architecture",
    "array",
    "assert",
    "attribute",
    "begin",
    "block",
    "body",
    "buffer",
    "bus",
    "case",
    "component",
    "configuration",
    "constant",
    "disconnect",
    "downto",
    "else",
    "elsif",
    "end",
    "entity",
    "exit",
    "file",
    "for",
    "function",
    "generate",
    "generic",
    "group",
    "guarded",
    "if",
    "impure",
    "in",
    "inertial",
    "inout",
    "is",
    "label",
    "library",
    "linkage",
    "literal",
    "loop",
    "map",
    "mod",
    "nand",
    "new",
    "next",
    "nor",
    "not",
    "null",
    "of",
    "on",
    "open",
    "or",
    "others",
    "out",
    "package",
    "port",
    "postponed",
    "procedure",
    "process",
    "pure",
    "range",
    "record",
    "register",
    "reject",
    "rem",
    "report",
    "return",
    "rol",
    "ror",
    "select",
    "severity",
    "shared",
    "signal",
    "sla",
    "sll",
    "sra",
    "srl",
    "subtype",
    "then",
    "to",
    "transport",
    "type",
    "unaffected",
    "units",
    "until",
    "use",
    "variable",
    "wait",
    "when",
    "while",
    "with",
    "xnor",
    "xor",
    "assume",
    "context",
    "cover",
    "default",
    "fairness",
    "force",
    "parameter",
    "private",
    "property",
    "protected",
    "release",
    "restrict",
    "sequence",
    "strong",
    "view",
    "vmode",
    "vprop",
    "vunit",
];

/// How many words revision 1993 has.
const COUNT_1993: usize = 97;

/// The reserved words of a revision, to be looked up.
#[derive(Drop)]
pub struct ReservedWords {
    pub revision: Revision,
    set: IndexSet<&'static [u8]>,
    ghost are_the_words: { map (λ w. w.now) set.keys ≡ reserved_words revision },
}

/// A set of these texts.
fn set_of(alloc: Global, words: &[&'static str]) -> Result<IndexSet<&'static [u8]>, AllocError>
    ensures { IfOk result
        (λ s. map (λ w. w.now) s.keys ≡ insert_all bytes_eq [] (map (λ w. w.now) words.now)) }
{
    let mut set = IndexSet::new(alloc);
    for word in words {
        set.insert(word.as_bytes())?;
    }
    Ok(set)
}

impl ReservedWords {
    /// The table, which is built once for a text.
    pub fn new(alloc: Global, revision: Revision) -> Result<ReservedWords, AllocError>
        ensures { IfOk result (λ w. w.revision ≡ revision) }
    {
        match revision {
            Revision::V2019 => {
                let set = set_of(alloc, &WORDS)?;
                Ok(ReservedWords { revision, set })
            }
            Revision::V1993 => {
                let set = set_of(alloc, &WORDS[..COUNT_1993])?;
                Ok(ReservedWords { revision, set })
            }
        }
    }

    /// The number of a word that is in lower case, if it is reserved.
    pub fn number_of(&self, word: &[u8]) -> Option<u16>
        ensures { result ≡ place_among (reserved_words self.now.revision) word.now }
    {
        match self.set.get_index_of(word) {
            Some(n) => Some(n as u16),
            None => None,
        }
    }
}
