//! What is known at a place.

ghost use Rattle.std.specs.Prelude.{◌≡◌, IfOk};
ghost use Rattle.vd_name_rows.specs.Words.{declared_name};

use crate::steps::Step;
use std::alloc::{AllocError, Global};
use std::marker::Model;
use vd_bytes::{Place, Text};
use vd_declarations::{DeclId, RegionId, TypeId};
use vd_forms::Form;
use vd_trees::Revision;
use vd_ways::names::symbol_name;
use vd_ways::values::letter_name;

/// A name as it stands in a text: an identifier, a character literal or an operator symbol. Contracts see the name that it declares: the
/// identifier, the literal with its apostrophes, the symbol in lower case with its quotation marks.
#[derive(Clone, Copy)]
pub struct Word<'a> {
    pub form: Form,
    pub text: &'a [u8],
}

/// The actual of a generic type or function in a generic map.
#[derive(Clone, Copy)]
pub struct Actual {
    pub generic: DeclId,
    pub actual: DeclId,
}

/// What is known at a place of a text.
#[derive(Drop)]
pub struct At<'a> {
    pub revision: Revision,
    /// The number of the unit of the place.
    pub unit: u32,
    /// The region of the place, and whether it is that of a package declaration.
    pub region: RegionId,
    pub is_package: bool,
    /// The region of the ports that are looked up first.
    pub ports: Option<RegionId>,
    /// The name that was read last, and its place.
    pub word: Word<'a>,
    pub word_place: Place,
    pub label_place: Place,
    /// Whether the label that is read is that of a loop.
    pub is_loop: bool,
    /// The declaration that a selected name named last.
    pub named: Option<DeclId>,
    /// The type that is at hand: of a mark, a target, a range.
    pub mark: Option<TypeId>,
    /// The type of the selector round the place, and whether its choices are matched by `?=`.
    pub selector: Option<TypeId>,
    pub is_matching: bool,
    /// The type of the result of the function round the place.
    pub result: Option<TypeId>,
    /// The record type of the view round the place.
    pub viewed: Option<TypeId>,
    /// The actuals of types and functions in the generic map that was read.
    pub actuals: Vec<Actual>,
    /// The first declaration of the header round the place, that behind its last one, and the region behind its last one.
    pub header: u32,
    pub header_end: u32,
    pub header_regions: u32,
    /// The function whose body is round the place, where it was declared before.
    pub function: Option<DeclId>,
    /// The number that the next name of a list gets.
    pub next: u32,
    /// What is done with the next trees, one by one, and then with all others.
    pub steps: &'static [Step],
    pub rest: Step,
}

impl<'a> Model for At<'a> {
    ghost use Rattle.vd_name_rows.specs.Designs as seen;
    ghost use Rattle.vd_name_rows.specs.Words.{declared_name};

    ghost Value = { seen.At };

    ghost view = { λ a. record {
      revision = a.revision;
      unit = a.unit;
      region = a.region;
      is_package = a.is_package;
      ports = a.ports;
      word = declared_name a.word.form a.word.text.now;
      word_place = a.word_place;
      label_place = a.label_place;
      is_loop = a.is_loop;
      named = a.named;
      mark = a.mark;
      selector = a.selector;
      is_matching = a.is_matching;
      result = a.result;
      viewed = a.viewed;
      actuals = a.actuals.items;
      header = a.header;
      header_end = a.header_end;
      header_regions = a.header_regions;
      function = a.function;
      next = a.next;
      steps = a.steps.now;
      rest = a.rest;
    } };
}

impl<'a> Word<'a> {
    /// The name that it declares.
    pub fn name(&self, alloc: Global) -> Result<Text, AllocError>
        ensures { IfOk result (λ name. name ≡ declared_name self.now.form self.now.text.now) }
    {
        let name = match self.form {
            Form::Letter => letter_name(alloc, self.text)?,
            Form::Quoted => symbol_name(alloc, self.text)?,
            _ => return Text::from_slice(alloc, self.text),
        };
        Text::from_slice(alloc, name.as_slice())
    }
}

impl<'a> At<'a> {
    /// The same once more.
    pub fn again(&self, alloc: Global) -> Result<At<'a>, AllocError>
        ensures { IfOk result (λ at. at ≡ self.now) }
    {
        Ok(At {
            revision: self.revision,
            unit: self.unit,
            region: self.region,
            is_package: self.is_package,
            ports: self.ports,
            word: self.word,
            word_place: self.word_place,
            label_place: self.label_place,
            is_loop: self.is_loop,
            named: self.named,
            mark: self.mark,
            selector: self.selector,
            is_matching: self.is_matching,
            result: self.result,
            viewed: self.viewed,
            actuals: Vec::from_slice(alloc, self.actuals.as_slice())?,
            header: self.header,
            header_end: self.header_end,
            header_regions: self.header_regions,
            function: self.function,
            next: self.next,
            steps: self.steps,
            rest: self.rest,
        })
    }
}
