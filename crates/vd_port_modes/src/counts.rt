//! How many views a design has, with the copies in instances of packages.

ghost use Rattle.std.specs.Prelude.{◌≡◌, ◌+◌, IfOk, length};
ghost use Rattle.vd_port_modes.specs.Counts.{copied_count, view_count};

use crate::copies::Copies;
use std::alloc::AllocError;
use vd_port_lists::ListedView;

/// How many of some views have a copy in an instance.
#[tactic(auto, using(crate::proofs::CountLemmas::copied_first))]
fn copied_views(views: &[ListedView], copies: &Copies) -> usize
    ensures { result ≡ copied_count copies.now views.now }
{
    let mut count = 0;
    for view in views {
        if copies.copy(view.view).is_some() {
            count += 1;
        }
    }
    count
}

/// A sum. No memory has room for more views than a number counts.
fn sum(one: usize, other: usize) -> Result<usize, AllocError>
    ensures { IfOk result (λ n. n ≡ one + other) }
{
    match one.checked_add(other) {
        Some(sum) => Ok(sum),
        None => Err(AllocError),
    }
}

/// How many views there are: those that a design declares itself, and their copies.
#[tactic(auto, using(crate::proofs::CountLemmas::all_first))]
pub(crate) fn count_views(views: &[ListedView], copies: &[Copies]) -> Result<usize, AllocError>
    ensures { IfOk result (λ n. n ≡ view_count views.now copies.now) }
{
    let mut count = views.len();
    for of_instance in copies {
        count = sum(count, copied_views(views, of_instance))?;
    }
    Ok(count)
}
