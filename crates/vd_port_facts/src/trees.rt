//! Trees side by side.

ghost use Rattle.std.specs.Prelude.{◌≡◌, ◌≤◌};
ghost use Rattle.vd_operations.specs.Passing.{last_tree};
ghost use Rattle.vd_forest.specs.Forest.{size};

use vd_forest::Cursor;
use vd_resolved::Resolved;

/// The last tree.
pub(crate) fn last_of<'a>(trees: &Cursor<'a, Resolved>) -> Cursor<'a, Resolved>
    ensures is { result ≡ last_tree trees.now }
    ensures within { size result ≤ size trees.now }
{
    let mut rest = trees.fork();
    while let Some(first) = rest.open() {
        if first.next.form().is_none() {
            return rest;
        }
        rest = first.next;
    }
    rest
}
