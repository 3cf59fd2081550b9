//! Trees whose parts are walked.

use vd_declarations::{RegionId, TypeId};
use vd_forms::Form;
use vd_name_rows::steps::Object;
use vd_name_rows::{Step, Want, row_of};

/// What is done with the parts of a tree.
#[derive(Clone, Copy, PartialEq, Eq, Debug)]
pub(crate) enum Parts {
    /// Each has a step of its own.
    Steps,
    /// Words, closing names, and what has no name.
    Words,
    /// Parts of an expression.
    Expression,
    /// The pieces of a name.
    Pieces,
    /// A mark with a range, each by itself.
    Narrowed,
    /// The bounds of such a range.
    Bounds,
    /// Elements of a generic map.
    Generics,
    /// Elements of a port map.
    Ports,
    /// What stands in an association of a generic map.
    GenericAssociation,
    /// What stands in an association of a port map.
    PortAssociation,
    /// What stands in front of `=>` in a map.
    Front,
}

/// What the first piece of a name is written as.
#[derive(Clone, Copy, PartialEq, Eq, Debug)]
pub(crate) enum Head {
    /// No piece is written so far: libraries and units stand in front of what they declare.
    Missing,
    /// An identifier, or a selected name.
    Word,
    /// The symbol of an operator, alone.
    Symbol,
    /// A character literal, alone.
    Letter,
}

/// A largest expression: what its place wants, and the class of the parameter that is declared behind it, if one is.
#[derive(Clone, Copy)]
pub(crate) struct Root {
    pub(crate) want: Want,
    pub(crate) parameter: Option<Object>,
}

/// A tree whose parts are walked.
#[derive(Clone, Copy)]
pub(crate) struct Level {
    pub(crate) parts: Parts,
    /// The form of the tree, by whose row its parts have steps.
    pub(crate) form: Form,
    /// The number of the part that comes next.
    pub(crate) next: usize,
    /// The declaration that the node makes, where it makes one; that of a name is the one that its first piece names.
    pub(crate) number: Option<u32>,
    /// What a closing name inside is the name of.
    pub(crate) closes: Option<u32>,
    /// What was at hand in front of the tree.
    pub(crate) region: RegionId,
    pub(crate) selector: Option<TypeId>,
    /// What it is as a largest expression, where it is one.
    pub(crate) root: Option<Root>,
    pub(crate) head: Head,
    /// Its place among the parts of the expression that may be qualified, where it is one.
    pub(crate) candidate: Option<usize>,
}

impl Level {
    /// A tree whose parts have no steps.
    pub(crate) fn plain(parts: Parts, region: RegionId) -> Level {
        Level {
            parts,
            form: Form::Absent,
            next: 0,
            number: None,
            closes: None,
            region,
            selector: None,
            root: None,
            head: Head::Missing,
            candidate: None,
        }
    }

    /// A tree whose parts have the steps of its row.
    pub(crate) fn by_row(form: Form, region: RegionId) -> Level {
        Level {
            form,
            ..Level::plain(Parts::Steps, region)
        }
    }

    /// The step of the part that comes next.
    pub(crate) fn step(&self) -> Step {
        let row = row_of(self.form);
        match row.steps.get(self.next) {
            Some(step) => *step,
            None => row.rest,
        }
    }
}
