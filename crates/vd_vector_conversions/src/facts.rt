//! What is known of a design's declarations, by their numbers.

ghost use Rattle.std.specs.Prelude.{◌≡◌, slice_get};
ghost use Rattle.vd_vector_conversions.specs.Facts.{class_at, declared_mark, declared_name, element_flavour, flavour_at, flavour_numbered, is_signal, listed_flavour, mode_at, twin_at};

use crate::flavours::Flavour;
use crate::numbers::number_marked;
use vd_declarations::{Class, DeclId, Declaration};

/// The mode of a port.
#[derive(Clone, Copy, PartialEq, Eq, Debug)]
pub enum Mode {
    In,
    Out,
    InOut,
}

/// What is known of a design's declarations, by their numbers.
#[derive(Drop)]
pub struct Facts {
    /// The declarations, in which each flavour has a type of its own.
    pub declared: Vec<Declaration>,
    /// The flavour of a mark, of an object, and of what a function gives; of a record type that of all vectors in it that are elements.
    pub flavours: Vec<Option<Flavour>>,
    /// The modes of ports.
    pub modes: Vec<Mode>,
    /// The operator on STD_LOGIC_VECTOR for one on STD_ULOGIC_VECTOR.
    pub twins: Vec<Option<u32>>,
}

/// The flavour of a declaration.
pub fn flavour_numbered(facts: &Facts, number: u32) -> Option<Flavour>
    ensures { result ≡ flavour_numbered facts.now number }
{
    match facts.flavours.get(number as usize) {
        Some(flavour) => *flavour,
        None => None,
    }
}

/// The flavour of what is named, where something is.
pub fn flavour_at(facts: &Facts, number: Option<u32>) -> Option<Flavour>
    ensures { result ≡ flavour_at facts.now number }
{
    match number {
        Some(number) => flavour_numbered(facts, number),
        None => None,
    }
}

/// The operator on STD_LOGIC_VECTOR for the one that is named.
pub fn twin_at(facts: &Facts, number: Option<u32>) -> Option<u32>
    ensures { result ≡ twin_at facts.now number }
{
    match number {
        Some(number) => match facts.twins.get(number as usize) {
            Some(twin) => *twin,
            None => None,
        },
        None => None,
    }
}

/// The mode of the port that is named.
pub fn mode_at(facts: &Facts, number: Option<u32>) -> Mode
    ensures { result ≡ mode_at facts.now number }
{
    match number {
        Some(number) => match facts.modes.get(number as usize) {
            Some(mode) => *mode,
            None => Mode::In,
        },
        None => Mode::In,
    }
}

/// The class of a declaration. Where there is none, it is that of a label.
pub fn class_at(facts: &Facts, number: u32) -> Class
    ensures { result ≡ class_at facts.now number }
{
    match facts.declared.get(number as usize) {
        Some(declaration) => declaration.class,
        None => Class::Label,
    }
}

/// The type of a declaration.
pub fn declared_mark(facts: &Facts, number: u32) -> Option<u32>
    ensures { result ≡ declared_mark facts.now number }
{
    match facts.declared.get(number as usize) {
        Some(declaration) => number_marked(&declaration.mark),
        None => None,
    }
}

/// The name of a declaration.
pub fn declared_name(facts: &Facts, number: u32) -> &[u8]
    ensures { result.now ≡ declared_name facts.now number }
{
    match facts.declared.get(number as usize) {
        Some(declaration) => declaration.name.as_slice(),
        None => &[],
    }
}

/// Whether what is named is a signal or a port.
pub fn is_signal(facts: &Facts, number: Option<u32>) -> bool
    ensures { result ≡ is_signal facts.now number }
{
    match number {
        Some(number) => matches!(class_at(facts, number), Class::Signal | Class::Port),
        None => false,
    }
}

/// The flavour of the elements of an array type.
pub fn element_flavour(facts: &Facts, mark: Option<u32>) -> Option<Flavour>
    ensures { result ≡ element_flavour facts.now mark }
{
    let Some(of) = mark else {
        return None;
    };
    match class_at(facts, of) {
        Class::ArrayType { element_mark, .. } => flavour_numbered(facts, element_mark.number()),
        _ => None,
    }
}

/// What a declaration lists: the parameters of a function, the elements of a record type.
fn listed(facts: &Facts, owner: u32) -> &[DeclId]
    ensures { result.now ≡ Rattle.vd_vector_conversions.specs.Facts.listed facts.now owner }
{
    match facts.declared.get(owner as usize) {
        Some(declaration) => declaration.parameters.as_slice(),
        None => &[],
    }
}

/// The flavour of a parameter of a function or of an element of a record type, by its position.
pub fn listed_flavour(facts: &Facts, owner: u32, index: u32) -> Option<Flavour>
    ensures { result ≡ listed_flavour facts.now owner index }
{
    match listed(facts, owner).get(index as usize) {
        Some(id) => flavour_numbered(facts, id.number()),
        None => None,
    }
}
