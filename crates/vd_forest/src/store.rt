//! The store of nodes, and what makes forests in it.

ghost use Rattle.std.specs.Prelude.{◌≡◌, ◌<◌, ◌≤◌, [], IfOk, IfSome, OnErr, MatchOption, length};
ghost use Rattle.vd_forest.specs.Forest.{nothing, more, next_of, turned, with_next};
ghost use Rattle.vd_forest.specs.Store.{at, Holds, Extends};

use crate::cursor::Cursor;
use crate::numbers::number_after;
use crate::texts::Texts;
use std::alloc::{AllocError, Global};
use std::marker::Model;
use vd_bytes::Place;

/// A tree's node: its text by the number of a text, its parts and the trees after it by the
/// numbers of forests.
#[derive(Clone, Copy)]
struct Node<F> {
    form: F,
    text: u32,
    place: Place,
    parts: u32,
    next: u32,
}

/// Forests with numbers, each made of older ones. The number 0 is the empty forest, and the
/// number n is the forest that the nth node begins. It stands for that forest as long as the
/// store lives, and contracts see the store as the list of its forests from the number 1 on.
#[derive(Drop)]
pub struct Store<F: Copy + Drop> {
    nodes: Vec<Node<F>>,
    texts: Texts,
}

impl<F: Copy + Drop> Model for Store<F> {
    ghost use Rattle.std.specs.Prelude.{List};
    ghost use Rattle.std.specs.Coded.{coded_list};
    ghost use Rattle.vd_forest.specs.Forest.{Forest};
    ghost use Rattle.vd_forest.specs.Code.{coded_forest};

    ghost Value = { List (Forest F) };

    ghost coded = { coded_list (coded_forest F.code) };

    ghost use Rattle.std.specs.Prelude.{length};
    ghost use Rattle.vd_forest.specs.Built.{all_built, IsOrdered};

    ghost view = { λ a. all_built a.texts a.nodes.items };

    ghost invariant = { λ a. IsOrdered (length a.texts) 0 a.nodes.items };
}

impl<F: Copy + Drop> Store<F> {
    /// A store of the empty forest alone.
    pub fn new(alloc: Global) -> Self
        ensures { result ≡ [] }
    {
        Store {
            nodes: Vec::new(alloc),
            texts: Texts::new(alloc),
        }
    }

    /// A tree with these parts, before the trees of `next`.
    #[tactic(auto, using(crate::proofs::StoreLemmas::extends_same))]
    pub fn add(
        &mut self,
        form: F,
        text: &[u8],
        place: Place,
        parts: u32,
        next: u32,
    ) -> Result<u32, AllocError>
        requires parts_in { parts ≤ length self.old }
        requires next_in { next ≤ length self.old }
        ensures holds { IfOk result (λ number. Holds self.new number
            (more form text.now place (at self.old parts) (at self.old next))) }
        ensures extends { Extends self.old self.new }
        ensures unchanged { OnErr result (self.new ≡ self.old) }
    {
        let number = number_after(self.nodes.len())?;
        let text = self.texts.intern(text)?;
        self.nodes.push(Node {
            form,
            text,
            place,
            parts,
            next,
        })?;
        Ok(number)
    }

    /// The first tree of a forest, before the trees of `next`.
    #[tactic(auto, using(crate::proofs::StoreLemmas::extends_same))]
    pub fn relink(&mut self, number: u32, next: u32) -> Result<u32, AllocError>
        requires number_in { number ≤ length self.old }
        requires next_in { next ≤ length self.old }
        ensures holds { IfOk result (λ made. Holds self.new made
            (with_next (at self.old number) (at self.old next))) }
        ensures extends { Extends self.old self.new }
        ensures unchanged { OnErr result (self.new ≡ self.old) }
    {
        if number == 0 {
            return Ok(next);
        }
        let node = self.nodes[number as usize - 1];
        let made = number_after(self.nodes.len())?;
        self.nodes.push(Node { next, ..node })?;
        Ok(made)
    }

    /// The trees of a forest in the other order, before the trees of `rest`. So a list can be
    /// collected from its first tree on, and turned once.
    #[tactic(auto, using(crate::proofs::StoreLemmas::turned_relinked, crate::proofs::StoreLemmas::growing))]
    pub fn turn(&mut self, number: u32, rest: u32) -> Result<u32, AllocError>
        requires number_in { number ≤ length self.old }
        requires rest_in { rest ≤ length self.old }
        ensures holds { IfOk result (λ made. Holds self.new made
            (turned (at self.old number) (at self.old rest))) }
        ensures extends { Extends self.old self.new }
    {
        let mut left = number;
        let mut made = rest;
        while left > 0 {
            let next = self.after(left);
            made = self.relink(left, made)?;
            left = next;
        }
        Ok(made)
    }

    /// The trees after the first one of a forest that has one. Their number is smaller.
    pub fn after(&self, number: u32) -> u32
        requires number_in { number ≤ length self.now }
        requires some { 0 < number }
        ensures older { result < number }
        ensures next { at self.now result ≡ next_of (at self.now number) }
    {
        self.nodes[number as usize - 1].next
    }

    /// A cursor over a forest.
    pub fn cursor(&self, number: u32) -> Cursor<'_, F>
        requires { number ≤ length self.now }
        ensures { result ≡ at self.now number }
    {
        Cursor::new(self, number)
    }

    /// The first tree of a forest, with the numbers of its parts and of the trees after it.
    pub fn head(&self, number: u32) -> Option<Head<'_, F>>
        requires { number ≤ length self.now }
        ensures empty { result ≡ None → number ≡ 0 }
        ensures is { MatchOption result (at self.now number ≡ nothing) (λ head.
            at self.now number ≡ more head.form head.text.now head.place (at self.now head.parts) (at self.now head.next)) }
        ensures older { IfSome result (λ head. (head.parts < number) × (head.next < number)) }
    {
        if number == 0 {
            return None;
        }
        let head = self.node(number);
        Some(head)
    }

    /// The first tree of a forest that has one, with the numbers of its parts and of the trees
    /// after it, which are smaller.
    pub fn node(&self, number: u32) -> Head<'_, F>
        requires number_in { number ≤ length self.now }
        requires some { 0 < number }
        ensures is { at self.now number ≡
            more result.form result.text.now result.place (at self.now result.parts) (at self.now result.next) }
        ensures parts_older { result.parts < number }
        ensures next_older { result.next < number }
    {
        let node = self.nodes[number as usize - 1];
        let text = self.texts.get(node.text);
        Head {
            form: node.form,
            text,
            place: node.place,
            parts: node.parts,
            next: node.next,
        }
    }

    /// Where the store takes its memory.
    pub(crate) fn alloc(&self) -> Global {
        self.texts.alloc()
    }
}

/// A first tree, with the numbers of its parts and of the trees after it.
#[derive(Drop)]
pub struct Head<'a, F: Copy + Drop> {
    pub form: F,
    pub text: &'a [u8],
    pub place: Place,
    pub parts: u32,
    pub next: u32,
}
