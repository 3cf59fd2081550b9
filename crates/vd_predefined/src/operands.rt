//! The operands that the operators of a type share.

/// The parameters `l` and `r` of one type.
#[derive(Clone, Copy)]
pub struct Pair {
    pub left: u32,
    pub right: u32,
}

/// The operands of the operators of a type: those of the type itself, of the type of its elements, and of INTEGER.
#[derive(Clone, Copy)]
pub struct Operands {
    pub own_type: u32,
    pub element_type: u32,
    pub own: Pair,
    pub element: Pair,
    pub integer: Pair,
}
