//! Conditions of other conditions, and of choices.

ghost use Rattle.std.specs.Prelude.{◌≡◌, ◌≤◌, IfOk, length};
ghost use Rattle.vd_forest.specs.Forest.{next_of, nothing, parts_of};
ghost use Rattle.vd_forest.specs.Store.{at, Holds, Extends};
ghost use Rattle.vd_notes.specs.Makers.{noted, resolved};
ghost use Rattle.vd_lowering.specs.Conditions.{alone, any_choice, boolean, choice_by, compared, negated, operation, paired, ranged, ranged_behind, type_of, within};

use crate::operators::Operators;
use std::alloc::AllocError;
use vd_bytes::Place;
use vd_declarations::{DeclId, TypeId};
use vd_forest::Store;
use vd_forms::Form;
use vd_notes::{Note, Noted};
use vd_predefined::numbers::BOOLEAN;
use vd_resolved::Resolved;

/// A node that needs no note.
pub(crate) fn node_of(form: Form, declaration: Option<DeclId>, mark: Option<TypeId>) -> Noted
    ensures { result ≡ noted (resolved form declaration mark 0) }
{
    Noted {
        node: Resolved {
            form,
            declaration,
            mark,
            position: 0,
        },
        note: Note::Nothing,
    }
}

/// The type of conditions.
fn boolean() -> Option<TypeId>
    ensures { result ≡ boolean }
{
    Some(TypeId::of(BOOLEAN))
}

/// The trees behind the first one.
pub(crate) fn behind(out: &Store<Noted>, number: u32) -> u32
    requires { number ≤ length out.now }
    ensures within { result ≤ length out.now }
    ensures next { at out.now result ≡ next_of (at out.now number) }
{
    match out.head(number) {
        Some(head) => head.next,
        None => 0,
    }
}

/// The parts of the first tree.
pub(crate) fn inside(out: &Store<Noted>, number: u32) -> u32
    requires { number ≤ length out.now }
    ensures within { result ≤ length out.now }
    ensures parts { at out.now result ≡ parts_of (at out.now number) }
{
    match out.head(number) {
        Some(head) => head.parts,
        None => 0,
    }
}

/// The type of the first tree.
fn type_of(out: &Store<Noted>, number: u32) -> Option<TypeId>
    requires { number ≤ length out.now }
    ensures { result ≡ type_of (at out.now number) }
{
    match out.head(number) {
        Some(head) => head.form.node.mark,
        None => None,
    }
}

impl Operators {
    /// An operator whose result is BOOLEAN, with operands of a type.
    fn operation(
        &self,
        out: &mut Store<Noted>,
        form: Form,
        of: Option<TypeId>,
        place: Place,
        operands: u32,
    ) -> Result<u32, AllocError>
        requires { operands ≤ length out.old }
        ensures holds { IfOk result (λ made. Holds out.new made (operation self.now.rows.items form of place (at out.old operands))) }
        ensures extends { Extends out.old out.new }
    {
        let node = node_of(form, self.operator(form, of), boolean());
        out.add(node, &[], place, operands, 0)
    }

    /// The opposite of a condition, where there is one.
    pub(crate) fn negated(
        &self,
        out: &mut Store<Noted>,
        place: Place,
        condition: u32,
    ) -> Result<u32, AllocError>
        requires { condition ≤ length out.old }
        ensures holds { IfOk result (λ made. Holds out.new made (negated self.now.rows.items place (at out.old condition))) }
        ensures extends { Extends out.old out.new }
    {
        let Some(_) = out.head(condition) else {
            return Ok(0);
        };
        self.operation(out, Form::Not, boolean(), place, condition)
    }

    /// Two conditions, of which there may be one alone or none.
    #[tactic(auto, using(vd_forest::proofs::StoreLemmas::growing))]
    pub(crate) fn paired(
        &self,
        out: &mut Store<Noted>,
        form: Form,
        place: Place,
        left: u32,
        right: u32,
    ) -> Result<u32, AllocError>
        requires left_in { left ≤ length out.old }
        requires right_in { right ≤ length out.old }
        ensures holds { IfOk result (λ made. Holds out.new made
            (paired self.now.rows.items form place (at out.old left) (at out.old right))) }
        ensures extends { Extends out.old out.new }
    {
        let Some(_) = out.head(left) else {
            return Ok(right);
        };
        let Some(_) = out.head(right) else {
            return Ok(left);
        };
        let operands = out.relink(left, right)?;
        self.operation(out, form, boolean(), place, operands)
    }

    /// A comparison of a selector with a value.
    #[tactic(auto, using(vd_forest::proofs::StoreLemmas::growing))]
    pub(crate) fn compared(
        &self,
        out: &mut Store<Noted>,
        form: Form,
        place: Place,
        selector: u32,
        value: u32,
    ) -> Result<u32, AllocError>
        requires selector_in { selector ≤ length out.old }
        requires value_in { value ≤ length out.old }
        ensures holds { IfOk result (λ made. Holds out.new made
            (compared self.now.rows.items form place (at out.old selector) (at out.old value))) }
        ensures extends { Extends out.old out.new }
    {
        let of = type_of(out, selector);
        let operands = out.relink(selector, value)?;
        self.operation(out, form, of, place, operands)
    }

    /// Whether a selector is within bounds.
    #[tactic(auto, using(vd_forest::proofs::StoreLemmas::growing))]
    fn within(
        &self,
        out: &mut Store<Noted>,
        place: Place,
        selector: u32,
        low: u32,
        high: u32,
    ) -> Result<u32, AllocError>
        requires selector_in { selector ≤ length out.old }
        requires low_in { low ≤ length out.old }
        requires high_in { high ≤ length out.old }
        ensures holds { IfOk result (λ made. Holds out.new made
            (within self.now.rows.items place (at out.old selector) (at out.old low) (at out.old high))) }
        ensures extends { Extends out.old out.new }
    {
        let least = self.compared(out, Form::AtLeast, place, selector, low)?;
        let most = self.compared(out, Form::AtMost, place, selector, high)?;
        let operands = out.relink(least, most)?;
        self.operation(out, Form::And, boolean(), place, operands)
    }

    /// Whether a selector is in a range with these bounds.
    #[tactic(auto, using(vd_forest::proofs::StoreLemmas::growing))]
    fn ranged(
        &self,
        out: &mut Store<Noted>,
        form: Form,
        place: Place,
        selector: u32,
        bounds: u32,
    ) -> Result<u32, AllocError>
        requires selector_in { selector ≤ length out.old }
        requires bounds_in { bounds ≤ length out.old }
        ensures holds { IfOk result (λ made. Holds out.new made
            (ranged self.now.rows.items form place (at out.old selector) (at out.old bounds))) }
        ensures extends { Extends out.old out.new }
    {
        let second = behind(out, bounds);
        let left = out.relink(bounds, 0)?;
        let right = out.relink(second, 0)?;
        match form {
            Form::Descending => self.within(out, place, selector, right, left),
            _ => self.within(out, place, selector, left, right),
        }
    }

    /// The same where the range is that of a subtype.
    fn ranged_behind(
        &self,
        out: &mut Store<Noted>,
        place: Place,
        selector: u32,
        range: u32,
    ) -> Result<u32, AllocError>
        requires selector_in { selector ≤ length out.old }
        requires range_in { range ≤ length out.old }
        ensures holds { IfOk result (λ made. Holds out.new made
            (ranged_behind self.now.rows.items place (at out.old selector) (at out.old range))) }
        ensures extends { Extends out.old out.new }
    {
        let Some(head) = out.head(range) else {
            return Ok(0);
        };
        let (form, parts) = (head.form.node.form, head.parts);
        self.ranged(out, form, place, selector, parts)
    }

    /// Whether a selector is what a choice of a form says.
    fn choice(
        &self,
        out: &mut Store<Noted>,
        form: Form,
        place: Place,
        selector: u32,
        value: u32,
    ) -> Result<u32, AllocError>
        requires selector_in { selector ≤ length out.old }
        requires value_in { value ≤ length out.old }
        ensures holds { IfOk result (λ made. Holds out.new made
            (choice_by self.now.rows.items form place (at out.old selector) (at out.old value))) }
        ensures extends { Extends out.old out.new }
    {
        let parts = inside(out, value);
        match form {
            Form::Ascending | Form::Descending => self.ranged(out, form, place, selector, parts),
            Form::DiscreteSubtype => {
                let range = behind(out, parts);
                self.ranged_behind(out, place, selector, range)
            }
            _ => self.compared(out, Form::Equal, place, selector, value),
        }
    }

    /// What has been found so far, or one more choice.
    #[tactic(auto, using(vd_forest::proofs::StoreLemmas::growing))]
    fn with_choice(
        &self,
        out: &mut Store<Noted>,
        form: Form,
        place: Place,
        selector: u32,
        found: u32,
        choice: u32,
    ) -> Result<u32, AllocError>
        requires selector_in { selector ≤ length out.old }
        requires found_in { found ≤ length out.old }
        requires choice_in { choice ≤ length out.old }
        ensures holds { IfOk result (λ made. Holds out.new made
            (paired self.now.rows.items Form.Or place (at out.old found) (choice_by self.now.rows.items form place (at out.old selector) (alone (at out.old choice))))) }
        ensures extends { Extends out.old out.new }
    {
        let value = out.relink(choice, 0)?;
        let condition = self.choice(out, form, place, selector, value)?;
        self.paired(out, Form::Or, place, found, condition)
    }

    /// Whether a selector is what one of some choices says.
    #[tactic(auto, using(crate::proofs::ConditionLemmas::choosing))]
    pub(crate) fn any_choice(
        &self,
        out: &mut Store<Noted>,
        place: Place,
        selector: u32,
        choices: u32,
    ) -> Result<u32, AllocError>
        requires selector_in { selector ≤ length out.old }
        requires choices_in { choices ≤ length out.old }
        ensures holds { IfOk result (λ made. Holds out.new made
            (any_choice self.now.rows.items place (at out.old selector) nothing (at out.old choices))) }
        ensures extends { Extends out.old out.new }
    {
        let mut found = 0;
        let mut left = choices;
        while left > 0 {
            let head = out.node(left);
            let (form, next) = (head.form.node.form, head.next);
            found = self.with_choice(out, form, place, selector, found, left)?;
            left = next;
        }
        Ok(found)
    }
}
