//! Modes of ports and of elements of views.

use vd_declarations::DeclId;

/// The mode of a port. (IEEE 1076, interface declarations.)
#[derive(Clone, Copy, PartialEq, Eq, Hash, Debug)]
pub enum Mode {
    Input,
    Output,
    BothWays,
}

/// What a port or an element of a view has: a mode, or a view, perhaps conversed. (IEEE 1076, mode views.)
#[derive(Clone, Copy, PartialEq, Eq, Hash, Debug)]
pub enum PortMode {
    Plain(Mode),
    ByView {
        view: Option<DeclId>,
        is_converse: bool,
    },
}
