//! What trees come to where names are resolved: their nodes, and what is known where a node ends.
//!
//! Declarations of a file as they are entered at their ends, and the first rule that is broken in entering them.
//!
//! What a region declares under a name, units of `work` by their names, what stands round a unit, and tables of all units. (IEEE 1076, design
//! units and their analysis)
//!
//! Words, labels and lists of names as they are read, and names that have to mean one declaration: of a loop, a view or a type. (IEEE 1076, loop
//! statements; next and exit statements; IEEE 1076-2019, mode view declarations)
#![tactic(auto)]

mod architectures;
mod bodies;
pub mod declarations;
pub mod ended;
pub mod entering;
pub mod found;
pub mod label_nodes;
pub mod label_words;
pub mod labels;
pub mod lists;
pub mod made;
pub mod marks;
pub mod nodes;
pub mod noting;
pub mod round;
pub mod single;
pub mod tables;
pub mod trees;
pub mod words;

pub use declarations::{declaration_of, named_at};
pub use ended::{Ended, finished};
pub use entering::{enter, enter_as};
pub use found::{found_in, found_inside, named_in, region_inside, unit_named};
pub use label_nodes::add_named;
pub use label_words::{simple_name, skipped, word};
pub use labels::{label, label_name};
pub use lists::names;
pub use made::Made;
pub use marks::{converse, fitting_name, mark, view_name};
pub use nodes::{add_node, join, unresolved_node};
pub use noting::{close, note_bodies, note_body, note_formal, note_span, note_tied, span_to};
pub use round::{main_of, primary_of, round_unit};
pub use single::{alone, one_tree};
pub use tables::Units;
pub use trees::{form_of_next, is_single};
pub use words::enter_words;
