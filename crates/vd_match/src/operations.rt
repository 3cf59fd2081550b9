//! Operators of revision 2019 as what revision 1993 has: calls of the support package, `not` of others, comparisons, images.
//!
//! An operator is called by a node of its own form, or by a name with brackets. Both are written by one table; a name that goes on behind the brackets
//! stays a name. Bit string literals become string literals, and an aggregate that stands alone in the brackets of a qualified expression loses its own.

ghost use Rattle.std.specs.Prelude.{◌≡◌, ◌≤◌, ◌<◌, [], None, true, IfOk, length};
ghost use Rattle.vd_lowering.specs.Operators.{operator_at};
ghost use Rattle.vd_forest.specs.Forest.{more, nothing};
ghost use Rattle.vd_forest.specs.Store.{at, Holds, Extends};
ghost use Rattle.vd_notes.specs.Makers.{noted, resolved};
ghost use Rattle.vd_rewriting.specs.Rewriting.{rewritten};
ghost use Rattle.vd_match.specs.Operations.{brackets_in, called, image, in_name, is_ahead, in_operator, is_aggregate, is_brackets, is_one, lowered, named, negated_call, negated_pieces, negated_xor, negation, operation, quoted, sort_of, unwrapped, written};

use crate::support::{Function, Support};
use crate::writings::{Writing, writing_at};
use std::alloc::{AllocError, Global};
use vd_bytes::Place;
use vd_declarations::{DeclId, Declaration, TypeId};
use vd_forest::{Cursor, Opened, Store};
use vd_forms::Form;
use vd_lowering::operators::Operators;
use vd_notes::{Note, Noted, letter, word};
use vd_operations::tables::name_of;
use vd_predefined::numbers::{BIT, BOOLEAN, INTEGER};
use vd_resolved::Resolved;
use vd_rewriting::{Rewriting, rewrite};

/// The literal '1' of BIT.
const BIT_ONE: u32 = 10;

/// The pass: what is declared, which of it are the functions of the support package, and the operators of types.
#[derive(Clone, Copy)]
pub struct Operations<'a> {
    pub declarations: &'a [Declaration],
    pub support: &'a Support,
    pub operators: &'a Operators,
}

/// A call of an operator: the type that it gives and that of the name round it, where it stands, its operands, and what stands behind its brackets.
#[derive(Clone, Copy)]
struct Call {
    gives: Option<TypeId>,
    mark: Option<TypeId>,
    place: Place,
    operands: u32,
    rest: u32,
}

/// A node that needs no note.
fn node_of(form: Form, declaration: Option<DeclId>, mark: Option<TypeId>) -> Noted
    ensures { result ≡ noted (resolved form declaration mark 0) }
{
    Noted {
        node: Resolved {
            form,
            declaration,
            mark,
            position: 0,
        },
        note: Note::Nothing,
    }
}

/// What nodes of a form are to this pass.
#[derive(Clone, Copy, PartialEq, Eq, Debug)]
pub enum Sort {
    /// They call an operator that revision 1993 may lack.
    Operator,
    /// Names, with brackets of which an operator may be called.
    Name,
    /// Bit string literals.
    Bits,
    /// The last piece of a qualified expression.
    Qualification,
    Other,
}

/// What nodes of this form are.
fn sort_of(form: Form) -> Sort
    ensures { result ≡ sort_of form }
{
    match form {
        Form::Condition | Form::Nand | Form::Nor | Form::And | Form::Or => Sort::Operator,
        Form::Xor | Form::Xnor | Form::MatchEqual | Form::MatchUnequal => Sort::Operator,
        Form::MatchLess | Form::MatchAtMost | Form::MatchGreater => Sort::Operator,
        Form::MatchAtLeast | Form::ShiftLeftLogical | Form::ShiftRightLogical => Sort::Operator,
        Form::RotateLeft | Form::RotateRight | Form::AndReduction => Sort::Operator,
        Form::OrReduction | Form::XorReduction | Form::XnorReduction => Sort::Operator,
        Form::NandReduction | Form::NorReduction => Sort::Operator,
        Form::Name | Form::OperatorName => Sort::Name,
        Form::Bits => Sort::Bits,
        Form::Qualification => Sort::Qualification,
        _ => Sort::Other,
    }
}

/// The string literal for a bit string literal, whose text is its value.
fn quoted(node: Noted) -> Noted
    ensures { result ≡ quoted node }
{
    Noted {
        node: Resolved {
            form: Form::Quoted,
            ..node.node
        },
        note: node.note,
    }
}

/// Whether a tree is an aggregate.
fn is_aggregate(form: Form) -> bool
    ensures { result ≡ is_aggregate form }
{
    matches!(form, Form::Aggregate)
}

/// The elements of a qualified expression: those of an aggregate that stands in its brackets alone.
fn unwrapped(out: &Store<Noted>, parts: u32) -> u32
    requires { parts ≤ length out.now }
    ensures within { result ≤ length out.now }
    ensures is { at out.now result ≡ unwrapped (at out.now parts) }
{
    match out.head(parts) {
        Some(first) if is_aggregate(first.form.node.form) => match out.head(first.next) {
            Some(_) => parts,
            None => first.parts,
        },
        _ => parts,
    }
}

/// Whether a piece of a name is a list in brackets.
fn is_brackets(form: Form) -> bool
    ensures { result ≡ is_brackets form }
{
    matches!(form, Form::Arguments)
}

/// Whether there is a piece, and it isn't brackets.
fn is_ahead(out: &Store<Noted>, pieces: u32) -> bool
    requires { pieces ≤ length out.now }
    ensures is { result ≡ is_ahead (at out.now pieces) }
    ensures some { result ≡ true → 0 < pieces }
{
    match out.head(pieces) {
        Some(piece) => !is_brackets(piece.form.node.form),
        None => false,
    }
}

/// The pieces of a name from its first brackets on.
#[tactic(auto, using(crate::proofs::OperationLemmas::going))]
fn brackets_in(out: &Store<Noted>, pieces: u32) -> u32
    requires { pieces ≤ length out.now }
    ensures within { result ≤ length out.now }
    ensures is { at out.now result ≡ brackets_in (at out.now pieces) }
{
    let mut left = pieces;
    while is_ahead(out, left) {
        let piece = out.node(left);
        left = piece.next;
    }
    left
}

impl<'a> Operations<'a> {
    /// The first piece of a name, which names a declaration, in front of others.
    fn named(
        &self,
        out: &mut Store<Noted>,
        number: DeclId,
        place: Place,
        next: u32,
    ) -> Result<u32, AllocError>
        requires { next ≤ length out.old }
        ensures holds { IfOk result (λ made. Holds out.new made (named self.now.declarations.now number place (at out.old next))) }
        ensures extends { Extends out.old out.new }
    {
        let text = name_of(self.declarations, number.number());
        let node = node_of(Form::Identifier, Some(number), None);
        out.add(node, text, place, 0, next)
    }

    /// An operator with operands of a type.
    fn operation(
        &self,
        out: &mut Store<Noted>,
        form: Form,
        of: Option<TypeId>,
        gives: Option<TypeId>,
        place: Place,
        operands: u32,
        next: u32,
    ) -> Result<u32, AllocError>
        requires operands_in { operands ≤ length out.old }
        requires next_in { next ≤ length out.old }
        ensures holds { IfOk result (λ made. Holds out.new made
            (operation self.now.operators.now.rows.items form of gives place (at out.old operands) (at out.old next))) }
        ensures extends { Extends out.old out.new }
    {
        let node = node_of(form, self.operators.operator(form, of), gives);
        out.add(node, &[], place, operands, next)
    }

    /// A call of a function of the support package.
    #[tactic(auto, using(vd_forest::proofs::StoreLemmas::growing))]
    fn called(
        &self,
        out: &mut Store<Noted>,
        function: Function,
        call: &Call,
        next: u32,
    ) -> Result<u32, AllocError>
        requires operands_in { call.now.operands ≤ length out.old }
        requires rest_in { call.now.rest ≤ length out.old }
        requires next_in { next ≤ length out.old }
        ensures holds { IfOk result (λ made. Holds out.new made
            (called self.now.declarations.now self.now.support.now function call.now.gives call.now.mark call.now.place (at out.old call.now.operands)
            (at out.old call.now.rest) (at out.old next))) }
        ensures extends { Extends out.old out.new }
    {
        let number = self.support.number(function);
        let node = node_of(Form::Arguments, Some(number), call.gives);
        let brackets = out.add(node, &[], call.place, call.operands, call.rest)?;
        let pieces = self.named(out, number, call.place, brackets)?;
        let name = node_of(Form::Name, None, call.mark);
        let made = out.add(name, &[], call.place, pieces, next)?;
        Ok(made)
    }

    /// The symbol of `not`, in front of other pieces.
    fn symbol(
        &self,
        out: &mut Store<Noted>,
        text: &[u8],
        call: &Call,
        next: u32,
    ) -> Result<u32, AllocError>
        requires { next ≤ length out.old }
        ensures holds { IfOk result (λ made. Holds out.new made
            (more (noted (resolved Form.Quoted (operator_at self.now.operators.now.rows.items Form.Not call.now.gives) None 0)) text.now call.now.place nothing
            (at out.old next))) }
        ensures extends { Extends out.old out.new }
    {
        let negation = self.operators.operator(Form::Not, call.gives);
        let node = node_of(Form::Quoted, negation, None);
        out.add(node, text, call.place, 0, next)
    }

    /// The brackets of a call of `not`.
    fn negated_brackets(
        &self,
        out: &mut Store<Noted>,
        call: &Call,
        inner: u32,
    ) -> Result<u32, AllocError>
        requires inner_in { inner ≤ length out.old }
        requires rest_in { call.now.rest ≤ length out.old }
        ensures holds { IfOk result (λ made. Holds out.new made
            (more (noted (resolved Form.Arguments (operator_at self.now.operators.now.rows.items Form.Not call.now.gives) call.now.gives 0)) [] call.now.place
            (at out.old inner) (at out.old call.now.rest))) }
        ensures extends { Extends out.old out.new }
    {
        let negation = self.operators.operator(Form::Not, call.gives);
        let node = node_of(Form::Arguments, negation, call.gives);
        out.add(node, &[], call.place, inner, call.rest)
    }

    /// The pieces of a call of `not`, by its symbol.
    #[tactic(auto, using(vd_forest::proofs::StoreLemmas::growing))]
    fn negated_pieces(
        &self,
        out: &mut Store<Noted>,
        call: &Call,
        inner: u32,
    ) -> Result<u32, AllocError>
        requires inner_in { inner ≤ length out.old }
        requires rest_in { call.now.rest ≤ length out.old }
        ensures holds { IfOk result (λ made. Holds out.new made
            (negated_pieces self.now.operators.now.rows.items call.now.gives call.now.place (at out.old inner) (at out.old call.now.rest))) }
        ensures extends { Extends out.old out.new }
    {
        let brackets = self.negated_brackets(out, call, inner)?;
        let made = self.symbol(out, b"not".as_slice(), call, brackets)?;
        Ok(made)
    }

    /// `not` of a tree.
    #[tactic(auto, using(vd_forest::proofs::StoreLemmas::growing))]
    fn negation(
        &self,
        out: &mut Store<Noted>,
        call: &Call,
        inner: u32,
        next: u32,
    ) -> Result<u32, AllocError>
        requires inner_in { inner ≤ length out.old }
        requires rest_in { call.now.rest ≤ length out.old }
        requires next_in { next ≤ length out.old }
        ensures holds { IfOk result (λ made. Holds out.new made
            (negation self.now.operators.now.rows.items call.now.gives call.now.mark call.now.place (at out.old inner) (at out.old call.now.rest) (at out.old next))) }
        ensures extends { Extends out.old out.new }
    {
        match out.head(call.rest) {
            None => self.operation(
                out,
                Form::Not,
                call.gives,
                call.gives,
                call.place,
                inner,
                next,
            ),
            Some(_) => {
                let pieces = self.negated_pieces(out, call, inner)?;
                let name = node_of(Form::OperatorName, None, call.mark);
                let made = out.add(name, &[], call.place, pieces, next)?;
                Ok(made)
            }
        }
    }

    /// `not` of a call of a function of the support package.
    #[tactic(auto, using(vd_forest::proofs::StoreLemmas::growing))]
    fn negated_call(
        &self,
        out: &mut Store<Noted>,
        function: Function,
        call: &Call,
        next: u32,
    ) -> Result<u32, AllocError>
        requires operands_in { call.now.operands ≤ length out.old }
        requires rest_in { call.now.rest ≤ length out.old }
        requires next_in { next ≤ length out.old }
        ensures holds { IfOk result (λ made. Holds out.new made
            (negated_call self.now.declarations.now self.now.support.now self.now.operators.now.rows.items function call.now.gives call.now.mark call.now.place
            (at out.old call.now.operands) (at out.old call.now.rest) (at out.old next))) }
        ensures extends { Extends out.old out.new }
    {
        let alone = Call {
            mark: call.gives,
            rest: 0,
            ..*call
        };
        let inner = self.called(out, function, &alone, 0)?;
        let made = self.negation(out, call, inner, next)?;
        Ok(made)
    }

    /// `xor`, and nothing behind it.
    fn exclusion(&self, out: &mut Store<Noted>, call: &Call) -> Result<u32, AllocError>
        requires operands_in { call.now.operands ≤ length out.old }
        ensures holds { IfOk result (λ made. Holds out.new made
            (operation self.now.operators.now.rows.items Form.Xor call.now.gives call.now.gives call.now.place (at out.old call.now.operands) nothing)) }
        ensures extends { Extends out.old out.new }
    {
        self.operation(
            out,
            Form::Xor,
            call.gives,
            call.gives,
            call.place,
            call.operands,
            0,
        )
    }

    /// `not` of `xor`.
    #[tactic(auto, using(vd_forest::proofs::StoreLemmas::growing))]
    fn negated_xor(&self, out: &mut Store<Noted>, call: &Call, next: u32) -> Result<u32, AllocError>
        requires operands_in { call.now.operands ≤ length out.old }
        requires rest_in { call.now.rest ≤ length out.old }
        requires next_in { next ≤ length out.old }
        ensures holds { IfOk result (λ made. Holds out.new made
            (negated_xor self.now.operators.now.rows.items call.now.gives call.now.mark call.now.place (at out.old call.now.operands)
            (at out.old call.now.rest) (at out.old next))) }
        ensures extends { Extends out.old out.new }
    {
        let inner = self.exclusion(out, call)?;
        let made = self.negation(out, call, inner, next)?;
        Ok(made)
    }

    /// A comparison of an operand with the literal '1' of BIT.
    #[tactic(auto, using(vd_forest::proofs::StoreLemmas::growing))]
    fn is_one(&self, out: &mut Store<Noted>, call: &Call, next: u32) -> Result<u32, AllocError>
        requires operands_in { call.now.operands ≤ length out.old }
        requires next_in { next ≤ length out.old }
        ensures holds { IfOk result (λ made. Holds out.new made
            (is_one self.now.operators.now.rows.items call.now.gives call.now.place (at out.old call.now.operands) (at out.old next))) }
        ensures extends { Extends out.old out.new }
    {
        let of = TypeId::of(BIT);
        let one = DeclId::of(BIT_ONE);
        let one = letter(out, b"1".as_slice(), one, of, 1, call.place, 0)?;
        let both = out.relink(call.operands, one)?;
        let of = Some(of);
        let made = self.operation(out, Form::Equal, of, call.gives, call.place, both, next)?;
        Ok(made)
    }

    /// The attribute that gives the image of a value of a type.
    #[tactic(auto, using(vd_forest::proofs::StoreLemmas::growing))]
    fn image(
        &self,
        out: &mut Store<Noted>,
        of: u32,
        call: &Call,
        next: u32,
    ) -> Result<u32, AllocError>
        requires operands_in { call.now.operands ≤ length out.old }
        requires rest_in { call.now.rest ≤ length out.old }
        requires next_in { next ≤ length out.old }
        ensures holds { IfOk result (λ made. Holds out.new made
            (image self.now.declarations.now of call.now.gives call.now.mark call.now.place (at out.old call.now.operands) (at out.old call.now.rest)
            (at out.old next))) }
        ensures extends { Extends out.old out.new }
    {
        let place = call.place;
        let node = node_of(Form::Arguments, None, call.gives);
        let brackets = out.add(node, &[], place, call.operands, call.rest)?;
        let word = word(out, b"image".as_slice(), None, None, place, 0)?;
        let node = node_of(Form::Attribute, None, None);
        let attribute = out.add(node, &[], place, word, brackets)?;
        let pieces = self.named(out, DeclId::of(of), place, attribute)?;
        let name = node_of(Form::Name, None, call.mark);
        let made = out.add(name, &[], place, pieces, next)?;
        Ok(made)
    }

    /// What a node becomes that calls an operator.
    fn written(
        &self,
        out: &mut Store<Noted>,
        writing: Writing,
        node: &Opened<'_, Noted>,
        parts: u32,
        call: &Call,
        next: u32,
    ) -> Result<u32, AllocError>
        requires parts_in { parts ≤ length out.old }
        requires operands_in { call.now.operands ≤ length out.old }
        requires rest_in { call.now.rest ≤ length out.old }
        requires next_in { next ≤ length out.old }
        ensures holds { IfOk result (λ made. Holds out.new made
            (written self.now.declarations.now self.now.support.now self.now.operators.now.rows.items writing node.now.form node.now.text.now node.now.place
            (at out.old parts) call.now.gives call.now.mark call.now.place (at out.old call.now.operands) (at out.old call.now.rest) (at out.old next))) }
        ensures extends { Extends out.old out.new }
    {
        match writing {
            Writing::Kept => out.add(node.form, node.text, node.place, parts, next),
            Writing::Call(function) => self.called(out, function, call, next),
            Writing::NegatedCall(function) => self.negated_call(out, function, call, next),
            Writing::NegatedXor => self.negated_xor(out, call, next),
            Writing::IsOne => self.is_one(out, call, next),
            Writing::IntegerImage => self.image(out, INTEGER, call, next),
            Writing::TruthImage => self.image(out, BOOLEAN, call, next),
        }
    }

    /// What a name becomes.
    fn in_name(
        &self,
        out: &mut Store<Noted>,
        node: &Opened<'_, Noted>,
        parts: u32,
        next: u32,
    ) -> Result<u32, AllocError>
        requires parts_in { parts ≤ length out.old }
        requires next_in { next ≤ length out.old }
        ensures holds { IfOk result (λ made. Holds out.new made
            (in_name self.now.declarations.now self.now.support.now self.now.operators.now.rows.items node.now.form node.now.text.now node.now.place
            (at out.old parts) (brackets_in (at out.old parts)) (at out.old next))) }
        ensures extends { Extends out.old out.new }
    {
        match out.head(brackets_in(out, parts)) {
            None => out.add(node.form, node.text, node.place, parts, next),
            Some(brackets) => {
                let called = brackets.form.node;
                let call = Call {
                    gives: called.mark,
                    mark: node.form.node.mark,
                    place: node.place,
                    operands: brackets.parts,
                    rest: brackets.next,
                };
                let writing = writing_at(self.declarations, called.declaration);
                self.written(out, writing, node, parts, &call, next)
            }
        }
    }

    /// What a node becomes whose form is that of an operator.
    fn in_operator(
        &self,
        out: &mut Store<Noted>,
        node: &Opened<'_, Noted>,
        parts: u32,
        next: u32,
    ) -> Result<u32, AllocError>
        requires parts_in { parts ≤ length out.old }
        requires next_in { next ≤ length out.old }
        ensures holds { IfOk result (λ made. Holds out.new made
            (in_operator self.now.declarations.now self.now.support.now self.now.operators.now.rows.items node.now.form node.now.text.now node.now.place
            (at out.old parts) (at out.old next))) }
        ensures extends { Extends out.old out.new }
    {
        let called = node.form.node;
        let call = Call {
            gives: called.mark,
            mark: called.mark,
            place: node.place,
            operands: parts,
            rest: 0,
        };
        let writing = writing_at(self.declarations, called.declaration);
        self.written(out, writing, node, parts, &call, next)
    }
}

impl<'a> Rewriting<Noted, Noted> for Operations<'a> {
    ghost pass = { λ by. lowered by.declarations.now by.support.now by.operators.now.rows.items };

    fn make(
        &mut self,
        out: &mut Store<Noted>,
        node: &Opened<'_, Noted>,
        parts: u32,
        next: u32,
    ) -> Result<u32, AllocError> {
        match sort_of(node.form.node.form) {
            Sort::Operator => self.in_operator(out, node, parts, next),
            Sort::Name => self.in_name(out, node, parts, next),
            Sort::Bits => out.add(quoted(node.form), node.text, node.place, parts, next),
            Sort::Qualification => {
                let inside = unwrapped(out, parts);
                out.add(node.form, node.text, node.place, inside, next)
            }
            Sort::Other => out.add(node.form, node.text, node.place, parts, next),
        }
    }
}

/// Writes the operators of revision 2019 as what revision 1993 has: what is declared, which of it are the functions of the support package, and the
/// operators of types.
pub fn lower_operations(
    alloc: Global,
    declarations: &[Declaration],
    support: &Support,
    operators: &Operators,
    from: &Cursor<'_, Noted>,
    out: &mut Store<Noted>,
) -> Result<u32, AllocError>
    ensures holds { IfOk result (λ made. Holds out.new made
        (rewritten (lowered declarations.now support.now operators.now.rows.items) from.now)) }
    ensures extends { Extends out.old out.new }
{
    let mut by = Operations {
        declarations,
        support,
        operators,
    };
    rewrite(alloc, from, out, &mut by)
}
