//! The support package in front of a design, where one of its functions is called there.

ghost use Rattle.std.specs.Prelude.{◌≡◌, ◌≤◌, IfOk, length, option_map};
ghost use Rattle.std.specs.List.{list_any};
ghost use Rattle.vd_forest.specs.Store.{at, Extends, Holds};
ghost use Rattle.vd_match.specs.Packages.{in_front, is_called, is_from, moved, names_from, passed};

use std::alloc::{AllocError, Global};
use vd_bytes::{Place, Text};
use vd_declarations::{Class, DeclId, Declaration, Declarations, TypeId};
use vd_forest::{Cursor, Opened, Store};
use vd_operations::tables::given_count;
use vd_resolved::{Resolved, Tree};
use vd_rewriting::{Folding, Rewriting, fold, rewrite};
use vd_trees::Revision;

/// Where the declarations of another design are put: those that are given stay, and the others begin at a number.
#[derive(Clone, Copy, Debug)]
pub struct Shift {
    pub given: u32,
    pub first: u32,
}

impl Shift {
    /// Behind so many declarations.
    pub fn behind(count: usize) -> Result<Shift, AllocError> {
        match u32::try_from(count) {
            Ok(first) => Ok(Shift {
                given: given_count(Revision::V2019),
                first,
            }),
            Err(_) => Err(AllocError),
        }
    }

    /// The number of a declaration where it is put.
    fn number(self, number: u32) -> Result<u32, AllocError>
        ensures { IfOk result (λ n. n ≡ moved self.given self.first number) }
    {
        if number < self.given {
            return Ok(number);
        }
        match self.first.checked_add(number - self.given) {
            Some(moved) => Ok(moved),
            None => Err(AllocError),
        }
    }

    /// The same of a declaration that may be there.
    fn declaration(self, id: DeclId) -> Result<DeclId, AllocError>
        ensures { IfOk result (λ n. n ≡ moved self.given self.first id) }
    {
        let number = self.number(id.number())?;
        Ok(DeclId::of(number))
    }

    /// The same of a type.
    fn mark(self, id: TypeId) -> Result<TypeId, AllocError>
        ensures { IfOk result (λ n. n ≡ moved self.given self.first id) }
    {
        let number = self.number(id.number())?;
        Ok(TypeId::of(number))
    }

    /// The number at a node.
    fn named(self, id: Option<DeclId>) -> Result<Option<DeclId>, AllocError>
        ensures { IfOk result (λ n. n ≡ option_map (moved self.given self.first) id) }
    {
        match id {
            Some(id) => Ok(Some(self.declaration(id)?)),
            None => Ok(None),
        }
    }

    /// The type at a node.
    fn typed(self, id: Option<TypeId>) -> Result<Option<TypeId>, AllocError>
        ensures { IfOk result (λ n. n ≡ option_map (moved self.given self.first) id) }
    {
        match id {
            Some(id) => Ok(Some(self.mark(id)?)),
            None => Ok(None),
        }
    }

    /// Some declarations.
    fn all(self, alloc: Global, some: &Declarations) -> Result<Declarations, AllocError> {
        let mut numbers = Vec::new(alloc);
        for id in some.as_slice() {
            numbers.push(self.declaration(*id)?)?;
        }
        Ok(Declarations::of(numbers))
    }

    /// A class, with what it names.
    fn class(self, class: Class) -> Result<Class, AllocError> {
        match class {
            Class::Subtype { mark } => Ok(Class::Subtype {
                mark: self.declaration(mark)?,
            }),
            Class::ActualFunction { actual } => Ok(Class::ActualFunction {
                actual: self.declaration(actual)?,
            }),
            Class::ArrayType {
                index,
                element,
                element_mark,
            } => Ok(Class::ArrayType {
                index: self.mark(index)?,
                element: self.mark(element)?,
                element_mark: self.declaration(element_mark)?,
            }),
            _ => Ok(class),
        }
    }

    /// A declaration where it is put. Its region isn't one of the design.
    fn put(self, alloc: Global, declaration: &Declaration) -> Result<Declaration, AllocError> {
        Ok(Declaration {
            class: self.class(declaration.class)?,
            name: Text::from_slice(alloc, declaration.name.as_slice())?,
            mark: self.typed(declaration.mark)?,
            parameters: self.all(alloc, &declaration.parameters)?,
            generics: self.all(alloc, &declaration.generics)?,
            inside: None,
            place: declaration.place,
            made: declaration.made,
            wanted: Text::from_slice(alloc, declaration.wanted.as_slice())?,
        })
    }
}

/// Puts the declarations of another design, without those that are given, behind these.
pub fn put_behind(
    alloc: Global,
    declarations: &mut Vec<Declaration>,
    shift: Shift,
    other: &Tree,
) -> Result<(), AllocError> {
    let mut number: u32 = 0;
    for declaration in other.declarations() {
        if number >= shift.given {
            declarations.push(shift.put(alloc, declaration)?)?;
        }
        number = number.saturating_add(1);
    }
    Ok(())
}

/// The pass that puts the numbers of another design behind those of a design.
#[derive(Clone, Copy, Debug)]
struct Shifting {
    shift: Shift,
}

impl Rewriting<Resolved, Resolved> for Shifting {
    ghost pass = { λ by. passed by.shift.given by.shift.first };

    fn make(
        &mut self,
        out: &mut Store<Resolved>,
        node: &Opened<'_, Resolved>,
        parts: u32,
        next: u32,
    ) -> Result<u32, AllocError> {
        let form = Resolved {
            form: node.form.form,
            declaration: self.shift.named(node.form.declaration)?,
            mark: self.shift.typed(node.form.mark)?,
            position: node.form.position,
        };
        out.add(form, node.text, node.place, parts, next)
    }
}

/// Whether a node, or one of its parts, names a declaration from a number on.
#[derive(Clone, Copy, Debug)]
struct Naming {
    first: u32,
}

/// Whether something is named, and its number is one from this on.
fn is_from(first: u32, named: Option<DeclId>) -> bool
    ensures { result ≡ is_from first named }
{
    match named {
        Some(id) => id.number() >= first,
        None => false,
    }
}

/// Whether one of these holds.
fn is_one(parts: &[bool]) -> bool
    ensures { result ≡ list_any (λ b. b) parts.now }
{
    for part in parts {
        if *part {
            return true;
        }
    }
    false
}

impl Folding<Resolved, bool> for Naming {
    ghost meaning = { λ by. names_from by.first };

    fn node(
        &mut self,
        form: Resolved,
        _text: &[u8],
        _place: Place,
        parts: &[bool],
    ) -> Result<bool, AllocError> {
        Ok(is_from(self.first, form.declaration) || is_one(parts))
    }
}

/// Whether some trees name a declaration from a number on.
pub fn is_called(
    alloc: Global,
    trees: &Cursor<'_, Resolved>,
    first: u32,
) -> Result<bool, AllocError>
    ensures { IfOk result (λ called. called ≡ is_called first trees.now) }
{
    let named = fold(alloc, trees, &mut Naming { first })?;
    Ok(is_one(&named))
}

/// The units of a design, and those of the support package in front of them where they name a declaration of it.
#[tactic(auto, using(vd_forest::proofs::StoreLemmas::growing))]
pub fn put_in_front(
    alloc: Global,
    out: &mut Store<Resolved>,
    units: u32,
    shift: Shift,
    support: &Tree,
) -> Result<u32, AllocError>
    requires { units ≤ length out.old }
    ensures holds { IfOk result (λ made. Holds out.new made (in_front shift.given shift.first support.now.units (at out.old units))) }
    ensures extends { Extends out.old out.new }
{
    if !is_called(alloc, &out.cursor(units), shift.first)? {
        return Ok(units);
    }
    let made = rewrite(alloc, &support.cursor(), out, &mut Shifting { shift })?;
    let last_first = out.turn(made, 0)?;
    out.turn(last_first, units)
}
