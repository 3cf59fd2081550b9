//! What is seen of a tree from its leaves on: whether it does nothing as a waveform, and the first refusal in it.

ghost use Rattle.std.specs.Prelude.{◌≡◌, slice_index_or};
ghost use Rattle.vd_name_rules.specs.Looking.{all_do_nothing as do_all, first_among as first_of_all, unseen, without_effect as effect_is_missing, own_refusal as refused_itself};
ghost use Rattle.vd_value_rules.specs.Names.{does_nothing_by as does_it};

use std::alloc::AllocError;
use vd_bytes::{Place, Refused};
use vd_forms::Form;
use vd_resolved::Resolved;
use vd_rewriting::Folding;
use vd_walks::lesser;

/// What is seen of a tree.
#[derive(Clone, Copy, Drop)]
pub struct Looked {
    pub place: Place,
    /// As a waveform.
    pub does_nothing: bool,
    /// The first assignment in it that does nothing.
    pub refused: Option<Refused>,
}

/// Whether a waveform does nothing, by its first part and the one behind `else`.
fn does_nothing_by(form: Form, first: bool, last: bool) -> bool
    ensures { result ≡ does_it form first last }
{
    match form {
        Form::Unaffected => true,
        Form::ConditionalWaveform => first && last,
        Form::GuardedWaveform | Form::SelectedWaveform => first,
        _ => false,
    }
}

/// What is seen of the part with a number.
fn part_at(parts: &[Looked], number: usize) -> Looked
    ensures { result ≡ slice_index_or parts.now number unseen }
{
    match parts.get(number) {
        None => Looked {
            place: Place {
                file: 0,
                line: 0,
                column: 0,
            },
            does_nothing: false,
            refused: None,
        },
        Some(part) => *part,
    }
}

/// Whether each of some waveforms does nothing.
fn all_do_nothing(waveforms: &[Looked]) -> bool
    ensures { result ≡ do_all waveforms.now }
{
    for waveform in waveforms {
        if !waveform.does_nothing {
            return false;
        }
    }
    true
}

/// The first refusal in some trees.
pub fn first_among(trees: &[Looked]) -> Option<Refused>
    ensures { result ≡ first_of_all trees.now }
{
    let mut found = None;
    for tree in trees {
        found = lesser(found, tree.refused);
    }
    found
}

/// The refusal of an assignment, by the numbers of its target and of its first waveform.
fn without_effect(target: usize, waveform: usize, parts: &[Looked]) -> Option<Refused>
    ensures { result ≡ effect_is_missing target waveform parts.now }
{
    let waveforms = if waveform < parts.len() {
        &parts[waveform..]
    } else {
        &[]
    };
    if all_do_nothing(waveforms) {
        Some(Refused {
            place: part_at(parts, target).place,
            rule: 402,
        })
    } else {
        None
    }
}

/// The refusal of a tree itself.
fn own_refusal(form: Form, parts: &[Looked]) -> Option<Refused>
    ensures { result ≡ refused_itself form parts.now }
{
    match form {
        Form::SignalAssignment | Form::ConcurrentAssignment => without_effect(0, 2, parts),
        Form::SelectedSignalAssignment => without_effect(2, 4, parts),
        _ => None,
    }
}

/// Looks at trees from their leaves on.
#[derive(Drop)]
pub struct Looking;

impl Folding<Resolved, Looked> for Looking {
    ghost use Rattle.vd_name_rules.specs.Looking.{looked};

    ghost meaning = { λ by. looked };

    fn node(
        &mut self,
        form: Resolved,
        _text: &[u8],
        place: Place,
        parts: &[Looked],
    ) -> Result<Looked, AllocError> {
        let does_nothing = does_nothing_by(
            form.form,
            part_at(parts, 0).does_nothing,
            part_at(parts, 2).does_nothing,
        );
        let refused = lesser(own_refusal(form.form, parts), first_among(parts));
        Ok(Looked {
            place,
            does_nothing,
            refused,
        })
    }
}
