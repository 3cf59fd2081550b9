//! The names of a design, of both revisions: what each name means, and the first rule on names that is broken. Definitions that contracts cite.
#![tactic(auto)]

pub mod fit;
pub mod laws;
pub mod meant;
pub mod naming;
pub mod nodes;
pub mod outside;
pub mod pieces;
pub mod refusing;

pub use fit::Fit;
pub use laws::fits_are_tests;
pub use meant::{
    Meant, meant_behind, meant_by_selection, meant_by_text, one_that, path_meant, prefix_meant,
    refused_path, rule_of, some_or, visible_meant,
};
pub use naming::{Named, named_as};
pub use nodes::{named_path, unresolved};
pub use outside::{is_outside, means_outside, path_outside, prefix_outside};
pub use pieces::refused_pieces;
pub use refusing::broken_if;
