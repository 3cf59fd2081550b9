//! INTEGER and its operators.
#![tactic(auto)]

pub mod integers;
pub mod laws;

pub use integers::{
    integer_absolute, integer_add, integer_divide, integer_modulus, integer_multiply,
    integer_negate, integer_power, integer_remainder, integer_subtract,
};
pub use laws::division_follows_the_standard;
