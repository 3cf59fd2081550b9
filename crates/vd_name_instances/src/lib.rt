//! What an instance of a package or function with generics declares: what that declares, again, one by one and in order. (IEEE 1076-2019,
//! package and subprogram instantiation declarations)
//!
//! Instances of packages and functions with generics at their ends: what they declare, and what is refused of them. (IEEE 1076-2019, package
//! instantiation declarations; subprogram instantiation declarations)
#![tactic(auto)]

pub mod adding;
pub mod bodies;
pub mod classes;
pub mod copying;
pub mod declarations;
pub mod entries;
pub mod functions;
pub mod instances;
pub mod noting;
pub mod numbers;
pub mod packages;
pub mod refusals;
pub mod regions;
pub mod settled;
pub mod symbols;

pub use adding::add_copies;
pub use functions::function_instance_ends;
pub use instances::Instance;
pub use packages::package_instance_ends;
