//! Names with dots between them, read without memory.

ghost use Rattle.std.specs.Prelude.{◌≡◌, ◌++◌, ◌∷◌, [], codes, bytes_eq, option_map, option_and_then};
ghost use Rattle.vd_trees.specs.Paths.{dotted};
ghost use Rattle.vd_first_names.specs.Joins.{architecture_unit, label_names};
ghost use Rattle.vd_joins.specs.Behind.{behind, behind_labels};

use vd_trees::{Label, Level};

/// Nothing.
pub(crate) const NOTHING: &[u8] = b"";

/// The marks between names.
const DOT: &[u8] = b".";

const OPEN: &[u8] = b"(";

const CLOSE: &[u8] = b")";

/// What stands behind a name in a text that begins with it.
#[tactic(auto, using(crate::proofs::BehindLemmas::behind_bytes))]
pub(crate) fn behind<'t>(text: &'t [u8], name: &[u8]) -> Option<&'t [u8]>
    ensures { option_map (λ s. s.now) result ≡ behind name.now text.now }
{
    let mut rest = text;
    let mut left = name;
    loop {
        let Some((byte, others)) = left.split_first() else {
            return Some(rest);
        };
        let Some((first, behind)) = rest.split_first() else {
            return None;
        };
        if *first != *byte {
            return None;
        }
        left = others;
        rest = behind;
    }
}

/// What stands behind a dot and a name.
#[tactic(auto, using(crate::proofs::BehindLemmas::behind_dot))]
pub(crate) fn behind_dot<'t>(text: &'t [u8], name: &[u8]) -> Option<&'t [u8]>
    ensures { option_map (λ s. s.now) result ≡ behind (46 ∷ name.now) text.now }
{
    let rest = behind(text, DOT)?;
    behind(rest, name)
}

/// What stands behind some labels, each with a dot behind it.
#[tactic(auto, using(crate::proofs::BehindLemmas::behind_each))]
pub(crate) fn behind_labels<'t>(text: &'t [u8], labels: &[Label]) -> Option<&'t [u8]>
    ensures { option_map (λ s. s.now) result ≡ behind_labels labels.now text.now }
{
    let mut rest = text;
    let mut left = labels;
    loop {
        let Some((label, others)) = left.split_first() else {
            return Some(rest);
        };
        rest = behind(rest, label.name.as_slice())?;
        rest = behind(rest, DOT)?;
        left = others;
    }
}

/// Whether a text is some labels with dots between them.
#[tactic(auto, using(crate::proofs::BehindLemmas::dotted_labels))]
pub(crate) fn is_dotted(text: &[u8], labels: &[Label]) -> bool
    ensures { result ≡ bytes_eq text.now (dotted (label_names labels.now)) }
{
    let Some((last, others)) = labels.split_last() else {
        return text == NOTHING;
    };
    match behind_labels(text, others) {
        Some(rest) => rest == last.name.as_slice(),
        None => false,
    }
}

/// Whether a text is the unit of an architecture in rows: `entity(architecture)`.
#[tactic(auto, using(crate::proofs::BehindLemmas::unit_named))]
pub(crate) fn names_architecture(text: &[u8], level: &Level) -> bool
    ensures { result ≡ bytes_eq text.now (architecture_unit level.now) }
{
    let Some(opened) = behind(text, level.entity.as_slice()) else {
        return false;
    };
    let Some(inside) = behind(opened, OPEN) else {
        return false;
    };
    match behind(inside, level.architecture.as_slice()) {
        Some(rest) => rest == CLOSE,
        None => false,
    }
}
