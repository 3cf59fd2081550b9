//! Jumps over trees that stand in one list.

ghost use Rattle.std.specs.Prelude.{◌≡◌, ◌<◌, ◌≤◌, length};
ghost use Rattle.vd_forest.specs.Forest.{skipped};
ghost use Rattle.vd_forest.specs.Store.{at};
ghost use Rattle.vd_static_names.specs.Jumps.{AreJumps, IsJump};

use vd_forest::Store;
use vd_value_rules::IndicatedForm;

/// A way on in a list of trees: over so many trees, to those with a number.
#[derive(Clone, Copy, Debug)]
pub struct Jump {
    pub over: u32,
    pub to: u32,
}

/// Longer jumps aren't made.
const LONGEST: u32 = 1_000_000_000;

/// A jump from the trees with a number, where those from lower numbers are known. Two jumps of one length are made one, so that a list is
/// crossed in few steps.
pub(crate) fn tree_jump(store: &Store<IndicatedForm>, jumps: &[Jump], number: u32) -> Jump
    requires number_in { number ≤ length store.now }
    requires lower_in { number ≤ length jumps.now }
    requires known { AreJumps jumps.now store.now }
    ensures { IsJump store.now number result }
{
    if number == 0 {
        return Jump { over: 0, to: 0 };
    }
    let next = store.after(number);
    let first = jumps[next as usize];
    let second = jumps[first.to as usize];
    if first.over == second.over && first.over < LONGEST {
        Jump {
            over: first.over + second.over + 1,
            to: second.to,
        }
    } else {
        Jump { over: 1, to: next }
    }
}

/// The trees behind the first ones, as many as `count` says.
pub(crate) fn jump_over(
    store: &Store<IndicatedForm>,
    jumps: &[Jump],
    number: u32,
    count: u32,
) -> u32
    requires number_in { number ≤ length store.now }
    requires jump_in { number < length jumps.now }
    requires known { AreJumps jumps.now store.now }
    ensures within { result ≤ length store.now }
    ensures is { at store.now result ≡ skipped count (at store.now number) }
{
    let mut here = number;
    let mut left = count;
    while left > 0 && here > 0 {
        let jump = jumps[here as usize];
        if 0 < jump.over && jump.over <= left {
            here = jump.to;
            left -= jump.over;
        } else {
            here = store.after(here);
            left -= 1;
        }
    }
    here
}
