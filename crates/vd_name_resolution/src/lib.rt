//! The resolved design: what the header of a body declares stands for what the header of the function's declaration declares. (IEEE 1076,
//! subprogram bodies)
//!
//! What forms declare at their ends, by their rows, and what is known at the place behind them. (IEEE 1076, declarations; scope and visibility)
//!
//! The names of a design: each tree is made by the step at hand, or its parts are walked and it is made at their end; the walk over all units. (IEEE 1076,
//! scope and visibility; the order of analysis)
//!
//! The names of a design, resolved: the tree in which each name has its declaration and each expression its type, and the first rule on names that is
//! broken. (IEEE 1076, scope and visibility)
#![tactic(auto)]

pub mod behind;
pub mod clauses;
pub mod declared;
pub mod design;
pub mod end_kinds;
pub mod ending;
pub mod expressions;
pub mod functions;
pub mod inside;
pub mod instances;
pub mod kept;
pub mod kinds;
pub mod maps;
pub mod naming;
pub mod nodes;
pub mod objects;
pub mod resolved;
pub mod steps;
pub mod table;
pub mod trees;
pub mod units;
pub mod views;
pub mod words;

pub use behind::place_behind;
pub use clauses::read_clause;
pub use declared::settle_declaration;
pub use design::{given_names, settled_declarations, walk_units};
pub use ending::end;
pub use expressions::read_expression;
pub use functions::end_function;
pub use inside::{go_inside, leave_tree};
pub use instances::end_instance;
pub use kept::Kept;
pub use kinds::{Kind, goes_inside, kind_of};
pub use maps::read_map;
pub use naming::Naming;
pub use nodes::end_node;
pub use objects::end_object;
pub use resolved::{NamedDesign, resolve_names, settled_design};
pub use steps::take_step;
pub use table::Settling;
pub use trees::settle_tree;
pub use units::end_unit;
pub use views::end_view;
pub use words::read_word;
