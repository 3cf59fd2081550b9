//! How declarations come to their names.

use vd_declarations::{Class, Declaration, Made};
use vd_notes::Tables;

/// How a declaration comes to its name in the text that is written.
#[derive(Clone, Copy, PartialEq, Eq, Debug)]
pub(crate) enum Naming {
    /// It keeps the name that it has.
    Kept,
    /// By one that nothing of its unit has.
    InUnit,
    /// By one that no other function has besides.
    OfFunction,
    /// By one that nothing of the design has.
    Alone,
}

/// The declarations of a design, and its tables.
#[derive(Clone, Copy)]
pub(crate) struct Design<'a> {
    pub declarations: &'a [Declaration],
    pub tables: &'a Tables,
}

/// The name that an operator function has, in the place of its symbol.
const OPERATOR: &[u8] = b"op";

/// The package of the functions that stand for operators. It is written as it stands.
const SUPPORT: &[u8] = b"vdown_support";

/// The class of a declaration. That of a number that isn't there is a label.
pub(crate) fn class_of(design: &Design<'_>, number: u32) -> Class {
    match design.declarations.get(number as usize) {
        Some(declaration) => declaration.class,
        None => Class::Label,
    }
}

/// The name with which a number is declared.
pub(crate) fn declared_name<'a>(declarations: &'a [Declaration], number: u32) -> &'a [u8] {
    match declarations.get(number as usize) {
        Some(declaration) => declaration.name.as_slice(),
        None => &[],
    }
}

/// Whether a unit is an entity.
pub(crate) fn is_entity(design: &Design<'_>, unit: Option<u32>) -> bool {
    match unit {
        Some(number) => matches!(class_of(design, number), Class::Entity),
        None => false,
    }
}

/// The entity of a unit that is an architecture.
pub(crate) fn entity_of(design: &Design<'_>, unit: Option<u32>) -> Option<u32> {
    let number = unit?;
    match class_of(design, number) {
        Class::Architecture => design.tables.mark(number),
        _ => None,
    }
}

/// Whether a unit is the package of the functions that stand for operators.
pub(crate) fn is_support(design: &Design<'_>, unit: Option<u32>) -> bool {
    match unit {
        Some(number) => declared_name(design.declarations, number) == SUPPORT,
        None => false,
    }
}

/// Whether a declaration is written in a text, or stands for what is.
fn is_written(declaration: &Declaration) -> bool {
    matches!(declaration.made, Made::Written)
}

/// Whether a declaration keeps its name: a literal, an element of a record, a unit, a generic of an entity, a port without a view, or a label other than that
/// of a second or later alternative.
fn is_kept(design: &Design<'_>, declaration: &Declaration, home: Option<u32>) -> bool {
    match declaration.class {
        Class::GenericConstant => is_entity(design, home),
        Class::Port | Class::Label => is_written(declaration),
        _ => matches!(
            declaration.class,
            Class::EnumerationLiteral
                | Class::PhysicalUnit
                | Class::RecordElement
                | Class::Entity
                | Class::Architecture
                | Class::Package
                | Class::UninstantiatedPackage
                | Class::PackageInstance
                | Class::Context
        ),
    }
}

/// How a declaration of a unit comes to its name.
pub(crate) fn naming_of(
    design: &Design<'_>,
    declaration: &Declaration,
    home: Option<u32>,
) -> Naming {
    if is_kept(design, declaration, home) {
        return Naming::Kept;
    }
    if matches!(declaration.made, Made::Generic) {
        return Naming::Alone;
    }
    if declaration.class.is_function() {
        return Naming::OfFunction;
    }
    Naming::InUnit
}

/// The name that a declaration wants.
pub(crate) fn wanted_of(declaration: &Declaration) -> &[u8] {
    let wanted = declaration.wanted.as_slice();
    match wanted.first() {
        Some(b'"') => OPERATOR,
        _ => wanted,
    }
}

/// Whether a declaration is a literal or function that is given to each design. What is given stands at the first place of all.
pub(crate) fn is_given_value(declaration: &Declaration) -> bool {
    let place = declaration.place;
    place.file == 0
        && place.line == 1
        && place.column == 1
        && matches!(
            declaration.class,
            Class::EnumerationLiteral | Class::Function
        )
}
