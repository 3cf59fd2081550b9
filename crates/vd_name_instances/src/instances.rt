//! The declaration of an instance.

use std::marker::Model;
use vd_declarations::{Declarations, RegionId, TypeId};

/// What the declaration of an instance takes from that of the package or function with generics: its own number, which is the one behind the
/// copies; the copies of the parameters and of the generics; the region of the first copies; and the type.
#[derive(Drop)]
pub struct Instance {
    pub number: u32,
    pub parameters: Declarations,
    pub generics: Declarations,
    pub inside: RegionId,
    pub mark: Option<TypeId>,
}
