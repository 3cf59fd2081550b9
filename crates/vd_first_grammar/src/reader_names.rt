//! The names that are known, and reading a name that isn't one of them.

ghost use Rattle.std.specs.Prelude.{◌≡◌, [], OnOk};
ghost use Rattle.vd_forest.specs.Texts.{with_text};
ghost use Rattle.vd_first_grammar.specs.Given.{Gives};
ghost use Rattle.vd_first_grammar.specs.Reader.{among, is_name_outside, token_at};

use crate::reader_steps::Stop;
use indexmap::IndexSet;
use std::alloc::{AllocError, Global};
use std::marker::Model;
use vd_first_lex::tokens::{Kind, Token};

/// A set of names.
#[derive(Drop)]
pub(crate) struct Names {
    alloc: Global,
    set: IndexSet<Vec<u8>>,
}

impl Model for Names {
    ghost use Rattle.std.specs.Prelude.{ℕ, List, map};
    ghost use Rattle.std.specs.Coded.{coded_list, coded_ℕ};

    ghost Value = { List (List ℕ) };

    ghost coded = { coded_list (coded_list coded_ℕ) };

    ghost view = { λ a. map (λ name. name.items) a.set.keys };
}

impl Names {
    /// No name.
    pub(crate) fn new(alloc: Global) -> Names
        ensures { result ≡ [] }
    {
        Names {
            alloc,
            set: IndexSet::new(alloc),
        }
    }

    /// One more name, where it isn't there yet.
    pub(crate) fn add(&mut self, name: &[u8]) -> Result<(), AllocError>
        ensures { OnOk result (self.new ≡ with_text self.old name.now) }
    {
        let owned = Vec::from_slice(self.alloc, name)?;
        self.set.insert(owned)?;
        Ok(())
    }

    /// Whether a name is there.
    pub(crate) fn contains(&self, name: &[u8]) -> bool
        ensures { result ≡ among self.now name.now }
    {
        self.set.contains(name)
    }
}

/// A name that is none of these, and the tokens behind it.
#[tactic(auto, unfolding(crate::specs::Reader::token_at))]
pub(crate) fn name_outside_at<'a>(
    names: &Names,
    tokens: &'a [Token],
) -> Result<(&'a Token, &'a [Token]), Stop<'a>>
    ensures { Gives (λ x. (x.0.now, x.1.now)) result (token_at (is_name_outside names.now) tokens.now) }
{
    match tokens {
        [first, rest @ ..]
            if matches!(first.kind, Kind::Name) && !names.contains(first.text.as_slice()) => Ok((
            first, rest,
        )),
        _ => Err(Stop::Hopeless(tokens)),
    }
}
