//! What the pass over statements with choices knows of a design.
#![tactic(auto, using(vd_forest::proofs::StoreLemmas::growing))]

use crate::flavours::Flavours;
use crate::support::Support;
use std::alloc::{AllocError, Global};
use vd_declarations::{Class, DeclId, Declaration};
use vd_forest::Cursor;
use vd_lowering::operators::Operators;
use vd_notes::Noted;
use vd_predefined::numbers::INTEGER;

/// The table of the pass.
#[derive(Drop)]
pub(crate) struct Choosing<'d, 's> {
    pub(crate) declarations: &'d [Declaration],
    pub(crate) support: &'s Support,
    pub(crate) operators: Operators,
    pub(crate) flavours: Flavours,
    /// The operator `-` of INTEGER with one operand.
    pub(crate) negation: Option<DeclId>,
}

/// Whether a declaration is the operator `-` of INTEGER with one operand.
fn is_negation(declaration: &Declaration) -> bool {
    let is_of_integer = match &declaration.mark {
        Some(mark) => mark.number() == INTEGER,
        None => false,
    };
    is_of_integer
        && matches!(declaration.class, Class::PredefinedOperator)
        && declaration.parameters.as_slice().len() == 1
        && declaration.name.as_slice() == b"\"-\"".as_slice()
}

/// The number of that operator.
fn negation_in(declarations: &[Declaration]) -> Option<DeclId> {
    let mut number: u32 = 0;
    for declaration in declarations {
        if is_negation(declaration) {
            return Some(DeclId::of(number));
        }
        number = number.saturating_add(1);
    }
    None
}

impl<'d, 's> Choosing<'d, 's> {
    /// That of a design with these declarations and units.
    pub(crate) fn of(
        alloc: Global,
        declarations: &'d [Declaration],
        support: &'s Support,
        units: &Cursor<'_, Noted>,
    ) -> Result<Choosing<'d, 's>, AllocError> {
        let operators = Operators::of(alloc, declarations)?;
        let flavours = Flavours::of(alloc, declarations, units)?;
        Ok(Choosing {
            declarations,
            support,
            operators,
            flavours,
            negation: negation_in(declarations),
        })
    }
}
