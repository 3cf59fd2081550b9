//! The names that declarations have in the text that is written.

use crate::naming::declared_name;
use vd_declarations::Declaration;

/// The names that the declarations of a design have in the text that is written, by the numbers of the declarations. Where none stands a declaration
/// keeps the name with which it is declared.
#[derive(Drop)]
pub struct Chosen {
    pub names: Vec<Option<Vec<u8>>>,
}

impl Chosen {
    /// The name of a declaration in the text that is written. That of a number that isn't there is empty.
    pub fn name<'a>(&'a self, declarations: &'a [Declaration], number: u32) -> &'a [u8] {
        match self.names.get(number as usize) {
            Some(Some(name)) => name.as_slice(),
            _ => declared_name(declarations, number),
        }
    }
}
