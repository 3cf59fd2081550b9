//! The operators that made expressions call, by the types of their operands.

ghost use Rattle.std.specs.Prelude.{◌≡◌};
ghost use Rattle.vd_lowering.specs.Operators.{no_row, operator_at, operator_in};

use std::alloc::{AllocError, Global};
use vd_declarations::{DeclId, Declaration, TypeId};
use vd_forms::Form;
use vd_operations::tables::is_predefined;
use vd_trees::Revision;

/// The operators of a type, by its number.
#[derive(Clone, Copy, Debug)]
pub struct TypeRow {
    pub negation: Option<DeclId>,
    pub conjunction: Option<DeclId>,
    pub disjunction: Option<DeclId>,
    pub exclusion: Option<DeclId>,
    pub equality: Option<DeclId>,
    pub at_least: Option<DeclId>,
    pub at_most: Option<DeclId>,
}

/// A row for each declaration of a design.
#[derive(Drop)]
pub struct Operators {
    pub rows: Vec<TypeRow>,
}

/// Nothing is asked for.
fn no_row() -> TypeRow
    ensures { result ≡ no_row }
{
    TypeRow {
        negation: None,
        conjunction: None,
        disjunction: None,
        exclusion: None,
        equality: None,
        at_least: None,
        at_most: None,
    }
}

/// The operator of a row for nodes of a form.
fn operator_in(form: Form, row: &TypeRow) -> Option<DeclId>
    ensures { result ≡ operator_in form row.now }
{
    match form {
        Form::Not => row.negation,
        Form::And => row.conjunction,
        Form::Or => row.disjunction,
        Form::Xor => row.exclusion,
        Form::Equal => row.equality,
        Form::AtLeast => row.at_least,
        Form::AtMost => row.at_most,
        _ => None,
    }
}

/// Writes an operator with one operand into the row of its type.
fn set_one(row: &mut TypeRow, name: &[u8], number: DeclId) {
    if name == b"\"not\"".as_slice() {
        row.negation = Some(number);
    }
}

/// The same of one with two operands.
fn set_two(row: &mut TypeRow, name: &[u8], number: DeclId) {
    if name == b"\"and\"".as_slice() {
        row.conjunction = Some(number);
    } else if name == b"\"or\"".as_slice() {
        row.disjunction = Some(number);
    } else if name == b"\"xor\"".as_slice() {
        row.exclusion = Some(number);
    } else if name == b"\"=\"".as_slice() {
        row.equality = Some(number);
    } else if name == b"\">=\"".as_slice() {
        row.at_least = Some(number);
    } else if name == b"\"<=\"".as_slice() {
        row.at_most = Some(number);
    }
}

/// The type of a parameter.
fn type_of(declarations: &[Declaration], parameter: &DeclId) -> Option<TypeId> {
    let declaration = declarations.get(parameter.number() as usize)?;
    declaration.mark
}

/// The type of all operands, where they are of one.
fn operand_of(declarations: &[Declaration], parameters: &[DeclId]) -> Option<TypeId> {
    let first = type_of(declarations, parameters.first()?)?;
    for other in parameters {
        let of = type_of(declarations, other)?;
        if of.number() != first.number() {
            return None;
        }
    }
    Some(first)
}

/// Writes an operator into the row of its type.
fn set_operator(
    rows: &mut Vec<TypeRow>,
    declarations: &[Declaration],
    operator: &Declaration,
    number: DeclId,
) {
    let parameters = operator.parameters.as_slice();
    let Some(of) = operand_of(declarations, parameters) else {
        return;
    };
    if let Some(row) = rows.get_mut(of.number() as usize) {
        if parameters.len() == 1 {
            set_one(row, operator.name.as_slice(), number);
        } else if parameters.len() == 2 {
            set_two(row, operator.name.as_slice(), number);
        }
    }
}

impl Operators {
    /// The rows of these declarations: the operators that types bring with them, and those of IEEE 1164. Of several operators of one type that have
    /// one symbol the last one counts.
    pub fn of(alloc: Global, declarations: &[Declaration]) -> Result<Operators, AllocError> {
        let mut rows = vec![in alloc; no_row(); declarations.len()]?;
        let mut number: u32 = 0;
        for declaration in declarations {
            if is_predefined(Revision::V2019, declarations, number) {
                set_operator(&mut rows, declarations, declaration, DeclId::of(number));
            }
            number = number.saturating_add(1);
        }
        Ok(Operators { rows })
    }

    /// The operator that nodes of a form call, with operands of a type.
    pub fn operator(&self, form: Form, of: Option<TypeId>) -> Option<DeclId>
        ensures { result ≡ operator_at self.now.rows.items form of }
    {
        let of = of?;
        match self.rows.get(of.number() as usize) {
            Some(row) => operator_in(form, row),
            None => operator_in(form, &no_row()),
        }
    }
}
