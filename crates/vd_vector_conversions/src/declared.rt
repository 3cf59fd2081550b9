//! The declarations of a design, in which each of the two flavours has a type and operators of its own.

use crate::flavours::Flavour;
use std::alloc::{AllocError, Global};
use vd_bytes::{Place, Text};
use vd_declarations::{Class, DeclId, Declaration, Declarations, Made, TypeId};
use vd_predefined::numbers::{INTEGER, STD_LOGIC, STD_LOGIC_VECTOR, STD_ULOGIC, STD_ULOGIC_VECTOR};

/// The operators that both types have with two operands of their own.
const OF_TWO_VECTORS: &[&str] = &[
    "\"=\"", "\"/=\"", "\"<\"", "\"<=\"", "\">\"", "\">=\"", "\"and\"", "\"nand\"", "\"or\"",
    "\"nor\"", "\"xor\"",
];

/// Where what is given stands.
const FIRST_PLACE: Place = Place {
    file: 0,
    line: 1,
    column: 1,
};

/// The operands of the operators on STD_LOGIC_VECTOR.
#[derive(Clone, Copy)]
struct Operands {
    left: u32,
    right: u32,
}

/// Whether a declaration is of STD_LOGIC_VECTOR.
fn is_logic(flavours: &[Option<Flavour>], number: usize) -> bool {
    match flavours.get(number) {
        Some(flavour) => matches!(flavour, Some(Flavour::Logic)),
        None => false,
    }
}

/// The type of the elements of an array type.
fn element_of(flavours: &[Option<Flavour>], element: TypeId, element_mark: DeclId) -> TypeId {
    if element.number() == STD_ULOGIC_VECTOR && is_logic(flavours, element_mark.number() as usize) {
        TypeId::of(STD_LOGIC_VECTOR)
    } else {
        element
    }
}

/// The class of a declaration: STD_LOGIC_VECTOR is an array type, and that of the elements of arrays of such vectors.
fn class_of(flavours: &[Option<Flavour>], number: usize, class: Class) -> Class {
    if number == STD_LOGIC_VECTOR as usize {
        return Class::ArrayType {
            index: TypeId::of(INTEGER),
            element: TypeId::of(STD_ULOGIC),
            element_mark: DeclId::of(STD_LOGIC),
        };
    }
    match class {
        Class::ArrayType {
            index,
            element,
            element_mark,
        } => Class::ArrayType {
            index,
            element: element_of(flavours, element, element_mark),
            element_mark,
        },
        other => other,
    }
}

/// Whether a declaration stands in no file.
fn is_given(one: &Declaration) -> bool {
    one.place.file == 0 && one.place.line == 1 && one.place.column == 1
}

/// The type of a declaration: a type has none. An operand of an operator on arrays of vectors has that of their elements.
fn mark_of(flavours: &[Option<Flavour>], number: usize, one: &Declaration) -> Option<TypeId> {
    if number == STD_LOGIC_VECTOR as usize {
        return None;
    }
    if is_given(one) && is_vector(&one.mark) && is_logic(flavours, number) {
        return Some(TypeId::of(STD_LOGIC_VECTOR));
    }
    one.mark
}

/// A declaration once more, with other parameters, another class and another type.
fn again(
    alloc: Global,
    declared: &Declaration,
    class: Class,
    mark: Option<TypeId>,
    parameters: &[DeclId],
) -> Result<Declaration, AllocError> {
    let name = Text::from_slice(alloc, declared.name.as_slice())?;
    let wanted = Text::from_slice(alloc, declared.wanted.as_slice())?;
    let parameters = Vec::from_slice(alloc, parameters)?;
    let generics = Vec::from_slice(alloc, declared.generics.as_slice())?;
    Ok(Declaration {
        class,
        name,
        mark,
        parameters: Declarations::of(parameters),
        generics: Declarations::of(generics),
        inside: declared.inside,
        place: declared.place,
        made: declared.made,
        wanted,
    })
}

/// The declarations, in which STD_LOGIC_VECTOR is an array type.
fn copied(
    alloc: Global,
    flavours: &[Option<Flavour>],
    declared: &[Declaration],
) -> Result<Vec<Declaration>, AllocError> {
    let mut all: Vec<Declaration> = Vec::new(alloc);
    for (number, one) in declared.iter().enumerate() {
        let class = class_of(flavours, number, one.class);
        let mark = mark_of(flavours, number, one);
        let copy = again(alloc, one, class, mark, one.parameters.as_slice())?;
        all.push(copy)?;
    }
    Ok(all)
}

/// Puts a declaration behind the others.
fn add(declared: &mut Vec<Declaration>, one: Declaration) -> Result<u32, AllocError> {
    let Ok(number) = u32::try_from(declared.len()) else {
        return Err(AllocError);
    };
    declared.push(one)?;
    Ok(number)
}

/// An operand of STD_LOGIC_VECTOR.
fn operand(alloc: Global, name: &[u8]) -> Result<Declaration, AllocError> {
    let wanted = Text::from_slice(alloc, name)?;
    let name = Text::from_slice(alloc, name)?;
    Ok(Declaration {
        class: Class::Parameter,
        name,
        mark: Some(TypeId::of(STD_LOGIC_VECTOR)),
        parameters: Declarations::of(Vec::new(alloc)),
        generics: Declarations::of(Vec::new(alloc)),
        inside: None,
        place: FIRST_PLACE,
        made: Made::Written,
        wanted,
    })
}

/// Puts the operands of the operators on STD_LOGIC_VECTOR behind the other declarations.
fn add_operands(alloc: Global, declared: &mut Vec<Declaration>) -> Result<Operands, AllocError> {
    let l = operand(alloc, b"l")?;
    let left = add(declared, l)?;
    let r = operand(alloc, b"r")?;
    let right = add(declared, r)?;
    Ok(Operands { left, right })
}

/// Whether a type is STD_ULOGIC_VECTOR.
fn is_vector(mark: &Option<TypeId>) -> bool {
    match mark {
        Some(of) => of.number() == STD_ULOGIC_VECTOR,
        None => false,
    }
}

/// Whether a declaration has this type.
fn is_of_vectors(declared: &[Declaration], number: DeclId) -> bool {
    match declared.get(number.number() as usize) {
        Some(one) => is_vector(&one.mark),
        None => false,
    }
}

/// Whether a name is one of some.
fn is_among(name: &[u8], names: &[&str]) -> bool {
    for one in names {
        if name == one.as_bytes() {
            return true;
        }
    }
    false
}

/// Whether a declaration is given, and is an operator or a function.
fn is_given_operator(one: &Declaration) -> bool {
    is_given(one) && matches!(one.class, Class::PredefinedOperator | Class::Function)
}

/// Whether both types have an operator: all that compare two vectors, join to a vector, or do what a table of IEEE 1164 says with vectors alone.
fn has_twin(declared: &[Declaration], one: &Declaration) -> bool {
    if !is_given_operator(one) {
        return false;
    }
    let name = one.name.as_slice();
    match one.parameters.as_slice() {
        [only] => name == b"\"not\"".as_slice() && is_of_vectors(declared, *only),
        [left, right] => {
            if name == b"\"&\"".as_slice() {
                return is_vector(&one.mark);
            }
            is_among(name, OF_TWO_VECTORS)
                && is_of_vectors(declared, *left)
                && is_of_vectors(declared, *right)
        }
        _ => false,
    }
}

/// The parameter of an operator on STD_LOGIC_VECTOR for one of that on STD_ULOGIC_VECTOR, the first one or another.
fn other_parameter(
    declared: &[Declaration],
    operands: Operands,
    index: usize,
    parameter: DeclId,
) -> DeclId {
    if !is_of_vectors(declared, parameter) {
        return parameter;
    }
    let number = if index == 0 {
        operands.left
    } else {
        operands.right
    };
    DeclId::of(number)
}

/// The parameters of an operator on STD_LOGIC_VECTOR.
fn other_parameters(
    alloc: Global,
    declared: &[Declaration],
    operands: Operands,
    parameters: &[DeclId],
) -> Result<Vec<DeclId>, AllocError> {
    let mut others: Vec<DeclId> = Vec::new(alloc);
    for (index, parameter) in parameters.iter().enumerate() {
        others.push(other_parameter(declared, operands, index, *parameter))?;
    }
    Ok(others)
}

/// The operator on STD_LOGIC_VECTOR for one on STD_ULOGIC_VECTOR.
fn twin_of(
    alloc: Global,
    declared: &[Declaration],
    operands: Operands,
    one: &Declaration,
) -> Result<Declaration, AllocError> {
    let parameters = one.parameters.as_slice();
    let others = other_parameters(alloc, declared, operands, parameters)?;
    let mark = if is_vector(&one.mark) {
        Some(TypeId::of(STD_LOGIC_VECTOR))
    } else {
        one.mark
    };
    again(alloc, one, one.class, mark, &others)
}

/// Declarations with the operators on STD_LOGIC_VECTOR behind them, and each of these by the number of the operator on STD_ULOGIC_VECTOR.
#[derive(Drop)]
pub struct Declared {
    pub all: Vec<Declaration>,
    pub twins: Vec<Option<u32>>,
}

/// Puts the operator on STD_LOGIC_VECTOR behind the other declarations, where there is one for a declaration.
fn add_twin(
    alloc: Global,
    made: &mut Declared,
    declared: &[Declaration],
    operands: Operands,
    one: &Declaration,
) -> Result<(), AllocError> {
    if !has_twin(declared, one) {
        made.twins.push(None)?;
        return Ok(());
    }
    let twin = twin_of(alloc, declared, operands, one)?;
    let number = add(&mut made.all, twin)?;
    made.twins.push(Some(number))?;
    Ok(())
}

/// A function that is a generic has the twin of its actual.
fn follow_actuals(made: &mut Declared, declared: &[Declaration]) {
    for (number, one) in declared.iter().enumerate() {
        let Class::ActualFunction { actual } = one.class else {
            continue;
        };
        let twin = match made.twins.get(actual.number() as usize) {
            Some(twin) => *twin,
            None => None,
        };
        if let Some(here) = made.twins.get_mut(number) {
            *here = twin;
        }
    }
}

/// The declarations of a design, in which each of the two flavours has a type and operators of its own. These operators and their operands stand behind the
/// others.
pub fn declared_apart(
    alloc: Global,
    flavours: &[Option<Flavour>],
    declared: &[Declaration],
) -> Result<Declared, AllocError> {
    let mut all = copied(alloc, flavours, declared)?;
    let operands = add_operands(alloc, &mut all)?;
    let mut made = Declared {
        all,
        twins: Vec::new(alloc),
    };
    for one in declared {
        add_twin(alloc, &mut made, declared, operands, one)?;
    }
    follow_actuals(&mut made, declared);
    Ok(made)
}
