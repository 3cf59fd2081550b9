//! The row of a tree in a table of templates.

ghost use Rattle.std.specs.Prelude.{◌≡◌, ◌≤◌, ◌&&◌, ◌==◌, length, drop};
ghost use Rattle.vd_forms.specs.Forms.{form_number};
ghost use Rattle.vd_templates.specs.Templates.{up_to_head, behind_heads, row_in};
ghost use Rattle.vd_writing.specs.Heads.{is_head, is_head_for};

use vd_forms::Form;
use vd_templates::Piece;
use vd_templates::states::State;

/// Whether a row's head begins here.
pub fn is_head(piece: Piece) -> bool
    ensures { result ≡ is_head piece }
{
    matches!(piece, Piece::Of(..) | Piece::AnyOther(_))
}

/// A form's number.
pub fn number_of(form: Form) -> u16
    ensures { result ≡ form_number form }
{
    form as u16
}

/// Whether this is a head for trees of a form in a state.
fn is_head_for(state: State, form: Form, piece: Piece) -> bool
    ensures { result ≡ is_head_for state form piece }
{
    match piece {
        Piece::Of(there, head) => there == state && number_of(head) == number_of(form),
        Piece::AnyOther(there) => there == state,
        _ => false,
    }
}

/// Where the first head for trees of a form in a state stands, or where the table ends.
fn head_at(table: &[Piece], state: State, form: Form) -> usize
    ensures within { result ≤ length table.now }
    ensures row { behind_heads (drop result table.now) ≡ row_in state form table.now }
{
    for (at, piece) in table.iter().enumerate() {
        if is_head_for(state, form, *piece) {
            return at;
        }
    }
    table.len()
}

/// Where the pieces of a row begin, behind its heads from this one on.
fn behind_heads(table: &[Piece], head: usize) -> usize
    requires { head ≤ length table.now }
    ensures within { result ≤ length table.now }
    ensures row { up_to_head (drop result table.now) ≡ behind_heads (drop head table.now) }
{
    let mut at = head;
    while at < table.len() {
        if !is_head(table[at]) {
            return at;
        }
        at += 1;
    }
    at
}

/// Where the pieces of the row of trees of a form in a state begin. They go up to the next head.
pub fn find(table: &[Piece], state: State, form: Form) -> usize
    ensures within { result ≤ length table.now }
    ensures row { up_to_head (drop result table.now) ≡ row_in state form table.now }
{
    let head = head_at(table, state, form);
    behind_heads(table, head)
}
