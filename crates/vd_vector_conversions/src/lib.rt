//! Conversions between the two vector types of IEEE 1164. In revision 2019 STD_LOGIC_VECTOR is a subtype of STD_ULOGIC_VECTOR, in revision 1993 each is a
//! type of its own.
//!
//! Of which of the two an expression is by itself, what its place wants, and the tree in which the two meet in conversions alone.
#![tactic(auto)]

pub mod conversions;
mod converting;
pub mod declared;
pub mod facts;
pub mod flavours;
pub mod inside;
pub mod marks;
pub mod modes;
pub mod naturals;
pub mod numbers;
pub mod ports;
pub mod records;
pub mod sorts;
pub mod wants;

pub use converting::convert_vectors;
pub use facts::Facts;
pub use flavours::Flavour;
