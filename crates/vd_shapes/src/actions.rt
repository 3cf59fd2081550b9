//! What productions do with trees.

use vd_forms::Form;

/// What a production does with the trees of its right side, which stand behind those so far: it
/// leaves them there; makes a node of them; makes a node of all that stand there since the
/// innermost make or group began; or is a group, whose trees are its own until it ends.
#[derive(Clone, Copy, Drop)]
pub enum Action {
    Splice,
    Make(Form),
    Wrap(Form),
    Group,
}
