//! What is kept of a node while its parts are walked.

use std::marker::Model;
use vd_bytes::Refused;
use vd_name_rows::{At, Step};

/// The step of a node whose parts are walked, what is known in front of it and before its parts, and a rule that is broken there.
#[derive(Drop)]
pub struct Kept<'a> {
    pub step: Step,
    pub outer: At<'a>,
    pub inside: At<'a>,
    pub first: Option<Refused>,
}

impl<'a> Model for Kept<'a> {
    ghost use Rattle.vd_naming.specs.Naming as seen;

    ghost Value = { seen.Kept };

    ghost view = { λ a. record { step = a.step; outer = a.outer; inside = a.inside; first = a.first } };
}
