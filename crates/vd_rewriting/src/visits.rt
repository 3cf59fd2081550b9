//! The nodes of a store as a pass sees them.

ghost use Rattle.std.specs.Prelude.{◌≡◌, ◌<◌, ◌≤◌, length};
ghost use Rattle.vd_forest.specs.Forest.{more};
ghost use Rattle.vd_forest.specs.Store.{at};

use vd_forest::{Opened, Store};

/// A node, with the numbers of its parts and of the trees after it.
#[derive(Drop)]
pub(crate) struct Visited<'a, F: Copy + Drop> {
    pub(crate) node: Opened<'a, F>,
    pub(crate) parts: u32,
    pub(crate) next: u32,
}

/// The node with a number.
pub(crate) fn visit<'a, F: Copy + Drop>(store: &'a Store<F>, number: u32) -> Visited<'a, F>
    requires number_in { number ≤ length store.now }
    requires some { 0 < number }
    ensures is { at store.now number ≡
        more result.node.form result.node.text.now result.node.place (at store.now result.parts) (at store.now result.next) }
    ensures parts { result.node.parts ≡ at store.now result.parts }
    ensures parts_older { result.parts < number }
    ensures next_older { result.next < number }
{
    let head = store.node(number);
    Visited {
        node: Opened {
            form: head.form,
            text: head.text,
            place: head.place,
            parts: store.cursor(head.parts),
            next: store.cursor(head.next),
        },
        parts: head.parts,
        next: head.next,
    }
}
