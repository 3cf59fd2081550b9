//! Making trees while a derivation is told.

ghost use Rattle.std.specs.Prelude.{ℕ, ◌≡◌, ◌+◌, ◌<◌, ◌≤◌, IfOk, OnOk, length, reverse, ◌++◌, ◌∷◌, []};
ghost use Rattle.vd_forms.specs.Forms.{is_among};
ghost use Rattle.vd_forms.specs.Validity.{keeps_brackets, is_one_expression, holders_of_actuals};
ghost use Rattle.vd_shapes.specs.Shapes.{action_of, leaf_form, with_leaf};
ghost use Rattle.vd_shapes.specs.Machine.{Open, Machine, closed, counted, opened, begun_with, stepped};
ghost use Rattle.vd_shapes.specs.Standing.{HasSameTables, StandsAt, PoppedAt, IsPopped, IsStanding, IsGrown, IsMakeable, IsMade, keeps_by, base_of, start_in};

use crate::actions::Action;
use crate::entries::{Entry, are_one_expression, gather};
use std::alloc::{AllocError, Global};
use vd_forest::Store;
use vd_forms::Form;
use vd_gram::{Builder, Step, Symbol};
use vd_tokens::Tokens;

/// A production that isn't complete: so many parts are still to come, and where the innermost
/// make or group began, among the entries and among the tokens.
#[derive(Clone, Copy, Drop)]
pub(crate) struct Frame {
    pub(crate) action: Action,
    pub(crate) left: u32,
    pub(crate) base: u32,
    pub(crate) start: u32,
}

/// The trees so far.
#[derive(Drop)]
pub(crate) struct Growing<'a> {
    pub(crate) actions: &'a [Action],
    pub(crate) tokens: &'a Tokens,
    pub(crate) store: Store<Form>,
    pub(crate) entries: Vec<Entry>,
    pub(crate) frames: Vec<Frame>,
    pub(crate) taken: u32,
}

/// The same number in 32 bits.
fn narrow(number: usize) -> Result<u32, AllocError>
    ensures { IfOk result (λ small. small ≡ number) }
{
    match u32::try_from(number) {
        Ok(small) => Ok(small),
        Err(_) => Err(AllocError),
    }
}

/// The form of a leaf that stands for a terminal, if it has one.
fn leaf_form(symbol: Symbol) -> Option<Form>
    ensures { result ≡ leaf_form symbol }
{
    match symbol {
        0 => Some(Form::Identifier),
        1 => Some(Form::Number),
        2 => Some(Form::Letter),
        3 => Some(Form::Quoted),
        4 => Some(Form::Bits),
        _ => None,
    }
}

/// What a production does.
fn action_of(actions: &[Action], production: u32) -> Action
    ensures { (tokens : _) → result ≡ action_of actions.now tokens production }
{
    match actions.get(production as usize) {
        None => Action::Splice,
        Some(action) => *action,
    }
}

fn holds_actuals(form: Form) -> bool
    ensures { result ≡ is_among holders_of_actuals form }
{
    matches!(
        form,
        Form::Arguments
            | Form::GenericMap
            | Form::PortMap
            | Form::Association
            | Form::OthersAssociation
    )
}

fn is_list_of_elements(form: Form) -> bool
    ensures { result ≡ is_among (Form.Aggregate ∷ Form.Qualification ∷ []) form }
{
    matches!(form, Form::Aggregate | Form::Qualification)
}

/// Whether a node of a form keeps brackets, given whether its parts are one expression.
fn keeps_brackets(form: Form, one_expression: bool) -> bool
    ensures { result ≡ keeps_by form one_expression }
{
    holds_actuals(form) || is_list_of_elements(form) && !one_expression
}

impl<'a> Growing<'a> {
    /// No trees, and a derivation to come.
    #[tactic(auto, using(crate::proofs::ShapeLemmas::nothing_grown))]
    pub(crate) fn new(
        alloc: Global,
        actions: &'a [Action],
        tokens: &'a Tokens,
    ) -> Result<Self, AllocError>
        ensures tables { IfOk result (λ growing. (growing.actions.now ≡ actions.now) × (growing.tokens.now ≡ tokens.now)) }
        ensures nothing { IfOk result (λ growing. IsGrown growing []) }
    {
        let mut frames = Vec::new(alloc);
        frames.push(Frame {
            action: Action::Splice,
            left: 1,
            base: 0,
            start: 0,
        })?;
        Ok(Growing {
            actions,
            tokens,
            store: Store::new(alloc),
            entries: Vec::new(alloc),
            frames,
            taken: 0,
        })
    }

    /// Makes a node of the entries from a base on, with the place of a token.
    fn make(&mut self, form: Form, base: u32, start: u32) -> Result<(), AllocError>
        requires { IsMakeable self.old base }
        ensures { OnOk result (IsMade self.old self.new form base start) }
    {
        let keep = keeps_brackets(form, are_one_expression(&self.entries, base));
        let parts = gather(&mut self.store, self.tokens, &mut self.entries, base, keep)?;
        self.entries.push(Entry {
            form,
            first: start,
            is_leaf: false,
            parts,
        })?;
        Ok(())
    }

    /// Ends a production that was taken off, since all its parts stand there.
    fn close(&mut self, frame: Frame) -> Result<(), AllocError>
        requires { IsPopped self.old frame }
        ensures kept { OnOk result (HasSameTables self.old self.new) }
        ensures frames { OnOk result (self.new.frames ≡ self.old.frames) }
        ensures stands { OnOk result ((o : Open) (m : Machine) → PoppedAt self.old frame o m
            → StandsAt self.new (record m { so_far = closed self.old.actions.now self.old.tokens.now o.action o.start o.outer m.so_far })) }
    {
        match frame.action {
            Action::Splice => Ok(()),
            Action::Group => Ok(()),
            Action::Make(form) => {
                self.make(form, frame.base, frame.start)?;
                Ok(())
            }
            Action::Wrap(form) => {
                self.make(form, frame.base, frame.start)?;
                Ok(())
            }
        }
    }

    /// One part more stands there: it is counted, and what is complete by it ends.
    fn count_part(&mut self) -> Result<(), AllocError>
        requires { IsStanding self.old }
        ensures kept { OnOk result (HasSameTables self.old self.new) }
        ensures stands { OnOk result ((m : Machine) → StandsAt self.old m
            → StandsAt self.new (counted self.old.actions.now self.old.tokens.now m.open_ones m.so_far m.taken)) }
    {
        while let Some(top) = self.frames.pop() {
            if top.left > 1 {
                self.frames.push(Frame {
                    left: top.left - 1,
                    ..top
                })?;
                return Ok(());
            }
            self.close(top)?;
        }
        Ok(())
    }

    /// Takes a token: its tree, where its text changes.
    fn take(&mut self, symbol: Symbol) -> Result<(), AllocError>
        ensures kept { OnOk result (HasSameTables self.old self.new) }
        ensures stands { OnOk result ((m : Machine) → StandsAt self.old m
            → StandsAt self.new (record m { so_far = with_leaf self.old.actions.now self.old.tokens.now (leaf_form symbol) m.taken m.so_far; taken = m.taken + 1 })) }
    {
        let first = self.taken;
        let Some(after) = first.checked_add(1) else {
            return Err(AllocError);
        };
        match leaf_form(symbol) {
            None => {
                self.taken = after;
                Ok(())
            }
            Some(form) => {
                self.entries.push(Entry {
                    form,
                    first,
                    is_leaf: true,
                    parts: 0,
                })?;
                self.taken = after;
                Ok(())
            }
        }
    }

    /// Where the innermost make or group began, among the entries.
    fn base(&self) -> u32
        ensures { result ≡ base_of (reverse self.now.frames.items) }
    {
        match self.frames.last() {
            None => 0,
            Some(top) => top.base,
        }
    }

    /// Where it began, among the tokens.
    fn start(&self) -> u32
        ensures { result ≡ start_in (reverse self.now.frames.items) }
    {
        match self.frames.last() {
            None => 0,
            Some(top) => top.start,
        }
    }

    /// An open production with all its parts to come.
    fn frame(&self, action: Action, left: u32) -> Result<Frame, AllocError>
        ensures { IfOk result (λ frame. (m : Machine) → StandsAt self.now m
            → PoppedAt self.now frame (opened action left m) (record m { so_far = begun_with action m.so_far })) }
    {
        match action {
            Action::Splice | Action::Wrap(_) => Ok(Frame {
                action,
                left,
                base: self.base(),
                start: self.start(),
            }),
            Action::Make(_) | Action::Group => {
                let base = narrow(self.entries.len())?;
                Ok(Frame {
                    action,
                    left,
                    base,
                    start: self.taken,
                })
            }
        }
    }

    /// Begins a production of so many parts. One without parts ends at once.
    fn begin(&mut self, production: u32, parts: u32) -> Result<(), AllocError>
        requires { IsStanding self.old }
        ensures kept { OnOk result (HasSameTables self.old self.new) }
        ensures stands { OnOk result ((m : Machine) → StandsAt self.old m
            → StandsAt self.new (stepped self.old.actions.now self.old.tokens.now m (Step.Node production parts))) }
    {
        let frame = self.frame(action_of(self.actions, production), parts)?;
        if parts > 0 {
            self.frames.push(frame)?;
            return Ok(());
        }
        self.close(frame)?;
        self.count_part()?;
        Ok(())
    }

    /// Takes a token, which is a part of the innermost open production.
    fn take_part(&mut self, symbol: Symbol) -> Result<(), AllocError>
        requires { IsStanding self.old }
        ensures kept { OnOk result (HasSameTables self.old self.new) }
        ensures stands { OnOk result ((m : Machine) (place : ℕ) → StandsAt self.old m
            → StandsAt self.new (stepped self.old.actions.now self.old.tokens.now m (Step.Leaf symbol place))) }
    {
        self.take(symbol)?;
        self.count_part()?;
        Ok(())
    }
}

impl<'a> Builder for Growing<'a> {
    ghost use Rattle.vd_shapes.specs.Standing.{IsGrown};
    ghost use Rattle.std.specs.Prelude.{List};
    ghost use Rattle.vd_tokens.specs.Lexemes.{Lexeme};
    ghost use Rattle.vd_shapes.specs.declared.actions.Action.{Action};

    ghost Tables = { List Action × List Lexeme };

    ghost tables = { λ growing. (growing.actions.now, growing.tokens.now) };

    ghost HasTaken = { λ growing steps. IsGrown growing steps };

    fn node(&mut self, production: u32, parts: u32) -> Result<(), AllocError> {
        self.begin(production, parts)?;
        Ok(())
    }

    fn leaf(&mut self, symbol: Symbol, _place: u32) -> Result<(), AllocError> {
        self.take_part(symbol)?;
        Ok(())
    }
}
