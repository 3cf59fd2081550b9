//! Reading the forests of a store.

ghost use Rattle.std.specs.Prelude.{◌≡◌, ◌≤◌, MatchOption, length};
ghost use Rattle.vd_forest.specs.Forest.{nothing, more, form_of, text_of, place_of, parts_of, next_of, skipped};
ghost use Rattle.vd_forest.specs.Store.{at};

use crate::store::Store;
use std::marker::Model;
use vd_bytes::Place;

/// A forest of a store.
#[derive(Drop)]
pub struct Cursor<'a, F: Copy + Drop> {
    store: &'a Store<F>,
    number: u32,
}

impl<'a, F: Copy + Drop> Model for Cursor<'a, F> {
    ghost use Rattle.vd_forest.specs.Forest.{Forest};
    ghost use Rattle.vd_forest.specs.Code.{coded_forest};

    ghost Value = { Forest F };

    ghost coded = { coded_forest F.code };

    ghost use Rattle.std.specs.Prelude.{◌≤◌, length};
    ghost use Rattle.vd_forest.specs.Store.{at};

    ghost view = { λ a. at a.store.now a.number };

    ghost invariant = { λ a. a.number ≤ length a.store.now };
}

/// The first tree of a forest, with the trees after it.
#[derive(Drop)]
pub struct Opened<'a, F: Copy + Drop> {
    pub form: F,
    pub text: &'a [u8],
    pub place: Place,
    pub parts: Cursor<'a, F>,
    pub next: Cursor<'a, F>,
}

impl<'a, F: Copy + Drop> Cursor<'a, F> {
    pub(crate) fn new(store: &'a Store<F>, number: u32) -> Self
        requires { number ≤ length store.now }
        ensures { result ≡ at store.now number }
    {
        Cursor { store, number }
    }

    /// Another cursor over this forest.
    pub fn fork(&self) -> Cursor<'a, F>
        ensures { result ≡ self.now }
    {
        Cursor {
            store: self.store,
            number: self.number,
        }
    }

    /// The store of this forest, and its number there.
    pub fn stands(&self) -> (&'a Store<F>, u32)
        ensures within { result.1 ≤ length result.0.now }
        ensures is { at result.0.now result.1 ≡ self.now }
    {
        (self.store, self.number)
    }

    /// The first tree, or `None` of the empty forest.
    pub fn open(&self) -> Option<Opened<'a, F>>
        ensures { MatchOption result (self.now ≡ nothing) (λ first.
            self.now ≡ more first.form first.text.now first.place first.parts first.next) }
    {
        let head = self.store.head(self.number)?;
        Some(Opened {
            form: head.form,
            text: head.text,
            place: head.place,
            parts: Cursor {
                store: self.store,
                number: head.parts,
            },
            next: Cursor {
                store: self.store,
                number: head.next,
            },
        })
    }

    /// The first tree's form.
    pub fn form(&self) -> Option<F>
        ensures { result ≡ form_of self.now }
    {
        let first = self.open()?;
        Some(first.form)
    }

    /// The first tree's text. The empty forest gives the empty text.
    pub fn text(&self) -> &'a [u8]
        ensures { result.now ≡ text_of self.now }
    {
        match self.open() {
            None => &[],
            Some(first) => first.text,
        }
    }

    /// The first tree's place.
    pub fn place(&self) -> Option<Place>
        ensures { result ≡ place_of self.now }
    {
        let first = self.open()?;
        Some(first.place)
    }

    /// The first tree's parts. The empty forest has none.
    pub fn parts(&self) -> Cursor<'a, F>
        ensures { result ≡ parts_of self.now }
    {
        match self.open() {
            None => self.fork(),
            Some(first) => first.parts,
        }
    }

    /// The trees after the first.
    pub fn next(&self) -> Cursor<'a, F>
        ensures { result ≡ next_of self.now }
    {
        match self.open() {
            None => self.fork(),
            Some(first) => first.next,
        }
    }

    /// The trees after the first ones, as many as `count` says, where there are so many.
    #[tactic(auto, using(crate::proofs::ForestLemmas::skipped_step, crate::proofs::ForestLemmas::skipped_nothing))]
    pub fn skip(&self, count: u32) -> Cursor<'a, F>
        ensures { result ≡ skipped count self.now }
    {
        let mut rest = self.fork();
        let mut left = count;
        while left > 0 {
            match rest.open() {
                None => return rest,
                Some(first) => rest = first.next,
            }
            left -= 1;
        }
        rest
    }
}
