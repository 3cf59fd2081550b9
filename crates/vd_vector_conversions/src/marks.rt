//! The flavours of declarations.

use crate::flavours::{Flavour, is_vector, same_flavour};
use crate::numbers::number_marked;
use std::alloc::{AllocError, Global};
use vd_declarations::{Class, DeclId, Declaration};
use vd_notes::Tables;
use vd_predefined::numbers::{STD_LOGIC_VECTOR, STD_ULOGIC_VECTOR};

/// The flavour at a number.
fn at(flavours: &[Option<Flavour>], number: u32) -> Option<Flavour> {
    match flavours.get(number as usize) {
        Some(flavour) => *flavour,
        None => None,
    }
}

/// The flavour of a mark, where those of the marks before it are known.
fn mark_flavour(before: &[Option<Flavour>], number: usize, class: Class) -> Option<Flavour> {
    if number == STD_LOGIC_VECTOR as usize {
        return Some(Flavour::Logic);
    }
    if number == STD_ULOGIC_VECTOR as usize {
        return Some(Flavour::Ulogic);
    }
    match class {
        Class::Subtype { mark } => at(before, mark.number()),
        _ => None,
    }
}

/// The flavours of all marks. A subtype is declared behind its mark, whose flavour it has.
fn mark_flavours(
    alloc: Global,
    declared: &[Declaration],
) -> Result<Vec<Option<Flavour>>, AllocError> {
    let mut flavours: Vec<Option<Flavour>> = Vec::new(alloc);
    for (number, one) in declared.iter().enumerate() {
        let flavour = mark_flavour(&flavours, number, one.class);
        flavours.push(flavour)?;
    }
    Ok(flavours)
}

/// The flavour of an object, or of what a function gives: that of its mark. What is given has no mark in a text.
fn object_flavour(
    marks: &[Option<Flavour>],
    tables: &Tables,
    number: u32,
    one: &Declaration,
) -> Option<Flavour> {
    match tables.mark(number) {
        Some(mark) => at(marks, mark),
        None => {
            if is_vector(number_marked(&one.mark)) {
                Some(Flavour::Ulogic)
            } else {
                None
            }
        }
    }
}

/// The flavour of a declaration.
fn own_flavour(
    marks: &[Option<Flavour>],
    before: &[Option<Flavour>],
    tables: &Tables,
    number: u32,
    one: &Declaration,
) -> Option<Flavour> {
    match one.class {
        Class::ActualFunction { actual } => at(before, actual.number()),
        Class::Subtype { .. } | Class::ArrayType { .. } => at(marks, number),
        _ => object_flavour(marks, tables, number, one),
    }
}

/// The flavours of all declarations by their marks.
fn own_flavours(
    alloc: Global,
    declared: &[Declaration],
    tables: &Tables,
    marks: &[Option<Flavour>],
) -> Result<Vec<Option<Flavour>>, AllocError> {
    let mut flavours: Vec<Option<Flavour>> = Vec::new(alloc);
    for one in declared {
        let Ok(number) = u32::try_from(flavours.len()) else {
            return Err(AllocError);
        };
        let flavour = own_flavour(marks, &flavours, tables, number, one);
        flavours.push(flavour)?;
    }
    Ok(flavours)
}

/// The mark of the elements of an array type whose elements are vectors, where the type is one.
fn vector_elements(declared: &[Declaration], one: &Declaration) -> Option<DeclId> {
    let of = one.mark?;
    let array = declared.get(of.number() as usize)?;
    match array.class {
        Class::ArrayType {
            element,
            element_mark,
            ..
        } => {
            if is_vector(Some(element.number())) {
                Some(element_mark)
            } else {
                None
            }
        }
        _ => None,
    }
}

/// Notes the flavour of the operands of an operator that are vectors.
fn note_operands(
    flavours: &mut [Option<Flavour>],
    declared: &[Declaration],
    operator: &Declaration,
    flavour: Option<Flavour>,
) {
    for operand in operator.parameters.as_slice() {
        let number = operand.number() as usize;
        let Some(one) = declared.get(number) else {
            continue;
        };
        if is_vector(number_marked(&one.mark)) && number < flavours.len() {
            flavours[number] = flavour;
        }
    }
}

/// An operator that joins elements to an array of vectors takes elements of the flavour of the array's elements.
fn note_joined(
    flavours: &mut [Option<Flavour>],
    declared: &[Declaration],
    marks: &[Option<Flavour>],
) {
    for operator in declared {
        if !matches!(operator.class, Class::PredefinedOperator) {
            continue;
        }
        if let Some(mark) = vector_elements(declared, operator) {
            note_operands(flavours, declared, operator, at(marks, mark.number()));
        }
    }
}

/// The flavours of the vectors among the elements of a record type.
#[derive(Clone, Copy, PartialEq, Eq, Debug)]
pub enum Among {
    NoVectors,
    Only(Flavour),
    Both,
}

/// With one more element.
pub fn among_with(among: Among, flavour: Option<Flavour>) -> Among {
    match (among, flavour) {
        (_, None) => among,
        (Among::NoVectors, Some(one)) => Among::Only(one),
        (Among::Only(one), Some(other)) => {
            if same_flavour(one, other) {
                among
            } else {
                Among::Both
            }
        }
        (Among::Both, Some(_)) => Among::Both,
    }
}

/// Those of the elements of one record type.
pub fn among_elements(flavours: &[Option<Flavour>], elements: &[DeclId]) -> Among {
    let mut among = Among::NoVectors;
    for element in elements {
        among = among_with(among, at(flavours, element.number()));
    }
    among
}

/// Notes the flavour of the vectors among the elements of each record type, where they have one, and says whether a record type has both.
fn note_records(flavours: &mut [Option<Flavour>], declared: &[Declaration]) -> bool {
    let mut some_both = false;
    for (number, one) in declared.iter().enumerate() {
        if !matches!(one.class, Class::RecordType) || number >= flavours.len() {
            continue;
        }
        match among_elements(flavours, one.parameters.as_slice()) {
            Among::Only(flavour) => flavours[number] = Some(flavour),
            Among::Both => some_both = true,
            Among::NoVectors => {}
        }
    }
    some_both
}

/// The flavours of declarations.
#[derive(Drop)]
pub struct Marked {
    pub flavours: Vec<Option<Flavour>>,
    /// Whether the elements of some record type are of both flavours.
    pub some_both: bool,
}

/// The flavours of a design's declarations, by their numbers.
pub fn mark_declarations(
    alloc: Global,
    declared: &[Declaration],
    tables: &Tables,
) -> Result<Marked, AllocError> {
    let marks = mark_flavours(alloc, declared)?;
    let mut flavours = own_flavours(alloc, declared, tables, &marks)?;
    note_joined(&mut flavours, declared, &marks);
    let some_both = note_records(&mut flavours, declared);
    Ok(Marked {
        flavours,
        some_both,
    })
}
