//! Labels that rows join.

ghost use Rattle.std.specs.Prelude.{◌≡◌, bytes_eq, option_map};
ghost use Rattle.std.specs.List.{list_any};
ghost use Rattle.vd_joins.specs.Joins.{are_none as are_no_labels, gives_labels as gives_both, is_label as is_label_kind, labels_join as do_labels_join, map_of};
ghost use Rattle.vd_joins.specs.Levels.{unit_above};

use crate::names::{NOTHING, is_dotted, names_architecture};
use crate::steps::same_indexes;
use vd_trees::{Label, Level, Row, RowKind};

/// Whether a text is the unit of what stands at a level, or is empty above the top.
fn is_unit(text: &[u8], above: Option<&Level>) -> bool
    ensures { result ≡ bytes_eq text.now (unit_above (option_map (λ l. l.now) above.entry)) }
{
    match above {
        None => text == NOTHING,
        Some(level) => names_architecture(text, level),
    }
}

fn is_label(kind: RowKind) -> bool
    ensures { result ≡ is_label_kind kind }
{
    matches!(kind, RowKind::Label)
}

/// Whether a row gives both lists of labels.
fn gives_labels(above: Option<&Level>, labels: &[Label], others: &[Label], row: &Row) -> bool
    ensures { result ≡ gives_both (unit_above (option_map (λ l. l.now) above.entry)) labels.now others.now row.now }
{
    is_label(row.kind)
        && is_unit(row.unit.as_slice(), above)
        && is_dotted(row.name19.as_slice(), labels)
        && is_dotted(row.name93.as_slice(), others)
}

/// Whether one of some rows does.
fn some_gives(rows: &[Row], above: Option<&Level>, labels: &[Label], others: &[Label]) -> bool
    ensures { result ≡ list_any (gives_both (unit_above (option_map (λ l. l.now) above.entry)) labels.now others.now) rows.now }
{
    for row in rows {
        if gives_labels(above, labels, others, row) {
            return true;
        }
    }
    false
}

/// Whether there are no labels on either side.
fn are_none(labels: &[Label], others: &[Label]) -> bool
    ensures { result ≡ are_no_labels labels.now others.now }
{
    match (labels.split_first(), others.split_first()) {
        (None, None) => true,
        _ => false,
    }
}

/// Whether labels join: their indexes are equal, and there are none, or a row gives both lists.
#[tactic(auto, using(crate::proofs::JoinLemmas::labels_of_map))]
pub(crate) fn labels_join(
    rows: &[Row],
    above: Option<&Level>,
    labels: &[Label],
    others: &[Label],
) -> bool
    ensures { result ≡ do_labels_join (map_of rows.now) (unit_above (option_map (λ l. l.now) above.entry)) labels.now others.now }
{
    if !same_indexes(labels, others) {
        return false;
    }
    are_none(labels, others) || some_gives(rows, above, labels, others)
}
