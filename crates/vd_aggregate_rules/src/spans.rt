//! From the least to the greatest value of ranges.

ghost use Rattle.std.specs.Prelude.{◌≡◌, false};
ghost use Rattle.vd_aggregate_rules.specs.Spans.{span_in, spanned_with, wider};
ghost use Rattle.vd_composites.specs.Aggregates.{chosen_bounds as bounds_chosen, greater as greater_of, lesser as lesser_of};

use vd_composites::Bounds;
use vd_given_choices::covering_ranges::{high, is_null, low};

fn lesser(a: i64, b: i64) -> i64
    ensures { result ≡ lesser_of a b }
{
    if a <= b { a } else { b }
}

fn greater(a: i64, b: i64) -> i64
    ensures { result ≡ greater_of a b }
{
    if a <= b { b } else { a }
}

/// From the least to the greatest value of a range and of what there is so far.
fn spanned(bounds: Bounds, span: Option<Bounds>) -> Bounds
    ensures { result ≡ spanned_with bounds span }
{
    match span {
        None => Bounds {
            left: low(bounds),
            right: high(bounds),
            down: false,
        },
        Some(span) => Bounds {
            left: lesser(low(bounds), span.left),
            right: greater(high(bounds), span.right),
            down: false,
        },
    }
}

/// The same, where a range without values counts for nothing.
fn widened(bounds: Bounds, span: Option<Bounds>) -> Option<Bounds>
    ensures { result ≡ wider bounds span }
{
    if is_null(bounds) {
        span
    } else {
        Some(spanned(bounds, span))
    }
}

/// From the least to the greatest value of all, where they have one.
fn span_of(bounds: &[Bounds]) -> Option<Bounds>
    ensures { result ≡ span_in bounds.now }
{
    let mut span = None;
    let mut left = bounds.len();
    while left > 0 {
        left -= 1;
        span = widened(bounds[left], span);
    }
    span
}

/// The bounds that choices without `others` must give: from the least to the greatest value of all, or where they have none, those of the first.
pub(crate) fn chosen_bounds(bounds: &[Bounds]) -> Bounds
    ensures { result ≡ bounds_chosen false bounds.now }
{
    if let Some(span) = span_of(bounds) {
        return span;
    }
    match bounds.first() {
        Some(first) => *first,
        None => Bounds {
            left: 1,
            right: 0,
            down: false,
        },
    }
}
