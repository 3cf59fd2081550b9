//! A forest evaluated from its leaves on.

ghost use Rattle.std.specs.Prelude.{IfOk};
ghost use Rattle.vd_meaning.specs.Tables.{table};
ghost use Rattle.vd_evaluator.specs.Senses.{AreTrees};

use crate::nodes::sense;
use crate::senses::Sense;
use std::alloc::{AllocError, Global};
use vd_declarations::Declaration;
use vd_forest::{Cursor, Opened};
use vd_plain_values::Entry;
use vd_resolved::Resolved;
use vd_trees::Revision;
use vd_walks::{FromLeaves, from_leaves};

/// What nodes are evaluated over.
#[derive(Clone, Copy)]
struct Evaluating<'d, 'e> {
    revision: Revision,
    declarations: &'d [Declaration],
    environment: &'d [Entry<'e>],
}

impl<'a, 'd, 'e> FromLeaves<'a, Resolved, Sense<'a>> for Evaluating<'d, 'e> {
    ghost use Rattle.std.specs.Prelude.{⊤};
    ghost use Rattle.vd_evaluator.specs.Senses.{IsTree};
    ghost use Rattle.vd_meaning.specs.Tables.{table};

    ghost is_ready = { λ by. Unit {0} };

    ghost is_sound = { λ by s. Unit {0} };

    ghost Frame = { ⊤ };

    ghost frame = { λ by. tt };

    ghost comes_to = { λ by. IsTree (table by.revision by.declarations.now) by.environment.now };

    fn tree(
        &mut self,
        alloc: Global,
        tree: &Opened<'a, Resolved>,
        parts: &[Sense<'a>],
    ) -> Result<Sense<'a>, AllocError> {
        sense(
            alloc,
            self.revision,
            self.declarations,
            self.environment,
            tree.form,
            tree.text,
            parts,
        )
    }
}

/// The trees of a forest, evaluated.
pub(crate) fn senses<'a>(
    alloc: Global,
    revision: Revision,
    declarations: &[Declaration],
    environment: &[Entry<'_>],
    from: &Cursor<'a, Resolved>,
) -> Result<Vec<Sense<'a>>, AllocError>
    ensures { IfOk result (λ made. AreTrees (table revision declarations.now) environment.now made.items from.now) }
{
    let mut evaluating = Evaluating {
        revision,
        declarations,
        environment,
    };
    from_leaves(alloc, from, &mut evaluating)
}
