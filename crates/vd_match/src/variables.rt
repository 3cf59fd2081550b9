//! The declarations of variables that have the values of selectors.
#![tactic(auto, using(vd_forest::proofs::StoreLemmas::growing))]

ghost use Rattle.std.specs.Prelude.{◌≤◌, IfOk, length};
ghost use Rattle.vd_forest.specs.Store.{Extends};

use crate::choosing::Choosing;
use crate::trees::{bare, behind, in_front, node_of, parts_at, place_or};
use std::alloc::{AllocError, Global};
use vd_bytes::Place;
use vd_declarations::{Class, DeclId, Declaration, TypeId};
use vd_forest::{Cursor, Opened, Store};
use vd_forms::Form;
use vd_notes::{CaseForm, Note, Noted, absent, mark_name_of, word};
use vd_operations::tables::{class_of, name_of};
use vd_predefined::numbers::{STD_LOGIC_VECTOR, STD_ULOGIC_VECTOR};

/// A variable for the selector of a statement, with the bounds of its index.
#[derive(Clone, Copy)]
struct Selector {
    variable: u32,
    /// Whether it is matched.
    is_match: bool,
    left: i32,
    right: i32,
    down: bool,
}

/// A type, and the mark by which it is written.
#[derive(Clone, Copy)]
struct Marked {
    of: u32,
    mark: u32,
}

/// A variable that is to be declared, where its statement stands.
#[derive(Clone, Copy)]
struct Waiting {
    selector: Selector,
    of: Marked,
    place: Place,
}

/// The variable of a statement, where its note says one.
fn selector_of(node: &Opened<'_, Noted>) -> Option<Selector> {
    if !matches!(node.form.node.form, Form::CaseStatement) {
        return None;
    }
    match node.form.note {
        Note::Selecting {
            form,
            variable,
            left,
            right,
            down,
        } => match form {
            CaseForm::Variable | CaseForm::Match => Some(Selector {
                variable,
                is_match: matches!(form, CaseForm::Match),
                left,
                right,
                down,
            }),
            _ => None,
        },
        _ => None,
    }
}

/// The form of a range in a direction.
fn range_form(down: bool) -> Form {
    if down {
        Form::Descending
    } else {
        Form::Ascending
    }
}

impl<'d, 's> Choosing<'d, 's> {
    /// The bounds of a variable whose index is of this type.
    fn bounds(
        &self,
        alloc: Global,
        out: &mut Store<Noted>,
        index: u32,
        selector: Selector,
        place: Place,
    ) -> Result<u32, AllocError>
        ensures within { IfOk result (λ made. made ≤ length out.new) }
        ensures extends { Extends out.old out.new }
    {
        let right = self.value(alloc, out, index, selector.right, place, 0)?;
        let both = self.value(alloc, out, index, selector.left, place, right)?;
        let node = node_of(range_form(selector.down), None, Some(TypeId::of(index)));
        let range = out.add(node, &[], place, both, 0)?;
        let made = out.add(bare(Form::IndexConstraint), &[], place, range, 0)?;
        Ok(made)
    }

    /// The constraint of a variable of this type: that of an array has its bounds.
    fn constraint(
        &self,
        alloc: Global,
        out: &mut Store<Noted>,
        of: u32,
        selector: Selector,
        place: Place,
    ) -> Result<u32, AllocError>
        ensures within { IfOk result (λ made. made ≤ length out.new) }
        ensures extends { Extends out.old out.new }
    {
        match class_of(self.declarations, of) {
            Class::ArrayType { index, .. } => {
                self.bounds(alloc, out, index.number(), selector, place)
            }
            _ => absent(out, place, 0),
        }
    }

    /// The name of a mark.
    fn mark(
        &self,
        out: &mut Store<Noted>,
        mark: u32,
        place: Place,
        next: u32,
    ) -> Result<u32, AllocError>
        requires { next ≤ length out.old }
        ensures within { IfOk result (λ made. made ≤ length out.new) }
        ensures extends { Extends out.old out.new }
    {
        match self.declarations.get(mark as usize) {
            Some(declaration) => mark_name_of(out, DeclId::of(mark), declaration, place, next),
            None => Ok(next),
        }
    }

    /// The subtype of a variable of this type and mark, in front of no default.
    fn subtype(
        &self,
        alloc: Global,
        out: &mut Store<Noted>,
        of: Marked,
        selector: Selector,
        place: Place,
    ) -> Result<u32, AllocError>
        ensures within { IfOk result (λ made. made ≤ length out.new) }
        ensures extends { Extends out.old out.new }
    {
        let default = absent(out, place, 0)?;
        let constraint = self.constraint(alloc, out, of.of, selector, place)?;
        let parts = self.mark(out, of.mark, place, constraint)?;
        let made = out.add(bare(Form::SubtypeIndication), &[], place, parts, default)?;
        Ok(made)
    }

    /// The declaration of a variable in front of others.
    fn declare(
        &self,
        alloc: Global,
        out: &mut Store<Noted>,
        waiting: &Waiting,
        next: u32,
    ) -> Result<u32, AllocError>
        requires { next ≤ length out.old }
        ensures within { IfOk result (λ made. made ≤ length out.new) }
        ensures extends { Extends out.old out.new }
    {
        let (selector, place) = (waiting.selector, waiting.place);
        let subtype = self.subtype(alloc, out, waiting.of, selector, place)?;
        let number = DeclId::of(selector.variable);
        let name = name_of(self.declarations, selector.variable);
        let names = word(out, name, Some(number), None, place, 0)?;
        let list = out.add(bare(Form::IdentifierList), &[], place, names, subtype)?;
        let made = out.add(bare(Form::VariableDeclaration), &[], place, list, next)?;
        Ok(made)
    }

    /// The type of a variable.
    fn type_of(&self, number: u32) -> Option<u32> {
        let declaration: &Declaration = self.declarations.get(number as usize)?;
        let mark = declaration.mark?;
        Some(mark.number())
    }

    /// The type of the variable of a statement, and its mark: it is of the vector type of which the selector is.
    fn marked(
        &self,
        alloc: Global,
        node: &Opened<'_, Noted>,
        of: u32,
        is_match: bool,
    ) -> Result<Marked, AllocError> {
        let plain = Marked { of, mark: of };
        if is_match || of != STD_ULOGIC_VECTOR {
            return Ok(plain);
        }
        let Some(selector) = node.parts.next().open() else {
            return Ok(plain);
        };
        if self.is_logic(alloc, &selector)? {
            Ok(Marked {
                of,
                mark: STD_LOGIC_VECTOR,
            })
        } else {
            Ok(plain)
        }
    }

    /// Adds the variable of a statement to others, where it has one.
    fn add(
        &self,
        alloc: Global,
        node: &Opened<'_, Noted>,
        found: &mut Vec<Waiting>,
    ) -> Result<(), AllocError> {
        let Some(selector) = selector_of(node) else {
            return Ok(());
        };
        let Some(of) = self.type_of(selector.variable) else {
            return Ok(());
        };
        let of = self.marked(alloc, node, of, selector.is_match)?;
        found.push(Waiting {
            selector,
            of,
            place: node.place,
        })?;
        Ok(())
    }

    /// The variables of some statements. It goes through all that is in the statements, in the order of the text.
    fn variables_in(
        &self,
        alloc: Global,
        statements: &Cursor<'_, Noted>,
    ) -> Result<Vec<Waiting>, AllocError> {
        let mut found: Vec<Waiting> = Vec::new(alloc);
        let mut left: Vec<Cursor<'_, Noted>> = Vec::new(alloc);
        left.push(statements.fork())?;
        // No text has so many nodes.
        for _ in 0..u64::MAX {
            let Some(trees) = left.pop() else {
                break;
            };
            if let Some(first) = trees.open() {
                self.add(alloc, &first, &mut found)?;
                left.push(first.next)?;
                left.push(first.parts)?;
            }
        }
        Ok(found)
    }

    /// The declarations of variables, in their order.
    fn declare_all(
        &self,
        alloc: Global,
        out: &mut Store<Noted>,
        found: &[Waiting],
    ) -> Result<u32, AllocError>
        ensures within { IfOk result (λ made. made ≤ length out.new) }
        ensures extends { Extends out.old out.new }
    {
        let mut made = 0;
        let mut left = found.len();
        while left > 0 {
            left -= 1;
            made = self.declare(alloc, out, &found[left], made)?;
        }
        Ok(made)
    }

    /// A declarative part, the first of some trees, with the variables of some statements behind its declarations.
    fn declarative_part(
        &self,
        alloc: Global,
        out: &mut Store<Noted>,
        part: u32,
        statements: &Cursor<'_, Noted>,
        place: Place,
    ) -> Result<u32, AllocError>
        requires { part ≤ length out.old }
        ensures within { IfOk result (λ made. made ≤ length out.new) }
        ensures extends { Extends out.old out.new }
    {
        let next = behind(out, part);
        let place = place_or(out, part, place);
        let found = self.variables_in(alloc, statements)?;
        let variables = self.declare_all(alloc, out, &found)?;
        let back = out.turn(parts_at(out, part), 0)?;
        let declarations = out.turn(back, variables)?;
        let made = out.add(bare(Form::DeclarativePart), &[], place, declarations, next)?;
        Ok(made)
    }

    /// A process or the body of a function, with the variables of its own statements. Its declarative part is behind so many other parts, and its statements
    /// are behind that.
    pub(crate) fn body(
        &self,
        alloc: Global,
        out: &mut Store<Noted>,
        node: &Opened<'_, Noted>,
        count: u32,
        parts: u32,
    ) -> Result<u32, AllocError>
        requires { parts ≤ length out.old }
        ensures within { IfOk result (λ made. made ≤ length out.new) }
        ensures extends { Extends out.old out.new }
    {
        let statements = node.parts.skip(count).next().parts();
        let mut part = parts;
        let mut front = 0;
        let mut left = count;
        while left > 0 {
            front = in_front(out, part, front)?;
            part = behind(out, part);
            left -= 1;
        }
        let made = self.declarative_part(alloc, out, part, &statements, node.place)?;
        let made = out.turn(front, made)?;
        out.add(node.form, node.text, node.place, made, 0)
    }
}
