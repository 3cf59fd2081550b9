//! The rows of the templates, each looked for once.

ghost use Rattle.std.specs.Prelude.{◌≡◌, ◌+◌, ◌*◌, IfOk};
ghost use Rattle.vd_forms.specs.Forms.{form_number};
ghost use Rattle.vd_templates.specs.Templates.{up_to_head, row_in};

use crate::finding::{find, number_of};
use std::alloc::{AllocError, Global};
use std::marker::Model;
use vd_forms::Form;
use vd_templates::Piece;
use vd_templates::states::State;

/// How many states there are. Rows of further states are looked for each time.
pub const STATES: usize = 23;

/// How many forms there are.
const FORMS: usize = 178;

/// Where the row of each form in each state begins, once it was looked for: at `form * STATES + state`. No row begins at 0,
/// where a head stands.
#[derive(Drop)]
pub struct Rows {
    table: &'static [Piece],
    starts: Vec<usize>,
}

impl Model for Rows {
    ghost use Rattle.std.specs.Prelude.{List};
    ghost use Rattle.vd_templates.specs.declared.pieces.Piece.{Piece};

    ghost Value = { List Piece };

    ghost use Rattle.vd_writing.specs.Starts.{AreStarts};

    ghost view = { λ a. a.table.now };

    ghost invariant = { λ a. AreStarts a.table.now a.starts.items };
}

fn place_of(state: State, form: Form) -> usize
    ensures { result ≡ form_number form * STATES + state }
{
    number_of(form) as usize * STATES + state as usize
}

impl Rows {
    /// The rows of a table, none of which was looked for.
    pub fn new(alloc: Global, table: &'static [Piece]) -> Result<Rows, AllocError>
        ensures { IfOk result (λ rows. rows ≡ table.now) }
    {
        let starts = vec![in alloc; 0; STATES * FORMS]?;
        Ok(Rows { table, starts })
    }

    /// The pieces of the row for trees of a form in a state, up to the next head.
    pub fn row(&mut self, state: State, form: Form) -> &'static [Piece]
        ensures row { up_to_head result.now ≡ row_in state form self.old }
        ensures unchanged { self.new ≡ self.old }
    {
        let at = place_of(state, form);
        if state as usize >= STATES || at >= self.starts.len() {
            let start = find(self.table, state, form);
            return &self.table[start..];
        }
        let known = self.starts[at];
        if known > 0 {
            return &self.table[known..];
        }
        let start = find(self.table, state, form);
        self.starts[at] = start;
        &self.table[start..]
    }
}
