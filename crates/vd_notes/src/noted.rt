//! Nodes of resolved trees with what a walk ahead found out about them.

use vd_resolved::Resolved;

/// A node of a resolved tree, with what is known of it that isn't local.
#[derive(Clone, Copy, Debug)]
pub struct Noted {
    pub node: Resolved,
    pub note: Note,
}

/// What is known of a node from all of the design.
#[derive(Clone, Copy, PartialEq, Eq, Debug)]
pub enum Note {
    /// Nothing is needed.
    Nothing,
    /// At a statement or generate with choices: how it is written, the declaration of its variable, and the bounds and direction of that
    /// variable's index.
    Selecting {
        form: CaseForm,
        variable: u32,
        left: i32,
        right: i32,
        down: bool,
    },
    /// At a range among the choices of `case?`: the positions of its least and its greatest value.
    Values {
        low: u32,
        high: u32,
    },
    /// At brackets in the name of a signal: whether the index or the bounds are static, locally and globally, and what they are where they are known.
    Index {
        is_local: bool,
        is_global: bool,
        is_known: bool,
        left: i32,
        right: i32,
        down: bool,
    },
    /// At an association of a port map: the declaration of the signal that stands for its expression.
    Implicit {
        signal: u32,
    },
    /// At a second or later alternative of a generate: the declaration of its label.
    Alternative {
        label: u32,
    },
}

/// How a statement with choices is written in the text of 1993.
#[derive(Clone, Copy, PartialEq, Eq, Debug)]
pub enum CaseForm {
    /// With choices, over its selector.
    Plain,
    /// With choices, over a variable that has the selector's value.
    Variable,
    /// As comparisons of the selector by `=`.
    Compare,
    /// As matches of a variable.
    Match,
}
