//! What is wanted of a node.

use crate::flavours::Flavour;
use crate::naturals::Upto;

/// What is wanted of a node, and what follows of it for the node behind.
#[derive(Clone, Copy, Debug)]
pub enum Want {
    Nothing,
    /// A vector of this flavour.
    Vector(Flavour),
    /// It is a piece of a name, which stands for this so far, and this is wanted of the whole name.
    Piece {
        upto: Upto,
        whole: Option<Flavour>,
    },
    /// It stands for the declaration at this position of a list: a parameter of a function, an element of a record type.
    Listed {
        owner: u32,
        index: u32,
    },
    /// It is one of the alternatives of an assignment that selects its values.
    Choosing {
        values: Option<Flavour>,
        choices: Option<Flavour>,
    },
    /// It is the value of an alternative, and the choices are behind it.
    Chosen {
        values: Option<Flavour>,
        choices: Option<Flavour>,
    },
    /// It is an element of a port map.
    Ports,
    /// It holds the formal of an association, whose actual is behind it. What both are converted to; and whether the actual is to be without the conversion
    /// that it has.
    Tied {
        formal: Option<Flavour>,
        actual: Option<Flavour>,
        is_bare: bool,
    },
    /// It is a formal, which is converted to this flavour, or isn't.
    Formal(Option<Flavour>),
    /// It is an actual, whose operand is converted to this flavour, or isn't.
    Bare(Option<Flavour>),
}

/// What is wanted of a node, and the flavour of what the function round it gives.
#[derive(Clone, Copy, Debug)]
pub struct Inside {
    pub want: Want,
    pub result: Option<Flavour>,
}
