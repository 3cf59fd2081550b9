//! The last piece of a name, where brackets stand there.

ghost use Rattle.std.specs.Prelude.{◌≡◌};
ghost use Rattle.vd_port_associations.specs.Associations.{read_brackets};
ghost use Rattle.vd_value_rules.specs.Actuals.{brackets_of, is_single as are_single, last_brackets as brackets_last};

use vd_declarations::DeclId;
use vd_forest::{Cursor, Opened};
use vd_forms::Form;
use vd_resolved::Resolved;

/// Brackets behind a name: what is called or converts, and the elements in them.
#[derive(Drop)]
pub struct LastBrackets<'a> {
    pub declaration: Option<DeclId>,
    pub elements: Cursor<'a, Resolved>,
}

/// Whether there is one tree.
pub fn is_single(trees: &Cursor<'_, Resolved>) -> bool
    ensures { result ≡ are_single trees.now }
{
    match trees.open() {
        Some(first) => first.next.form().is_none(),
        None => false,
    }
}

/// A piece, where it is brackets.
fn brackets_of<'a>(piece: &Opened<'a, Resolved>) -> Option<LastBrackets<'a>>
    ensures { read_brackets result ≡ brackets_of piece.now.form.form piece.now.form piece.now.parts }
{
    match piece.form.form {
        Form::Arguments => Some(LastBrackets {
            declaration: piece.form.declaration,
            elements: piece.parts.fork(),
        }),
        _ => None,
    }
}

/// The last piece, where brackets stand there.
pub fn last_brackets<'a>(pieces: &Cursor<'a, Resolved>) -> Option<LastBrackets<'a>>
    ensures { read_brackets result ≡ brackets_last pieces.now }
{
    let mut rest = pieces.fork();
    while let Some(piece) = rest.open() {
        if piece.next.form().is_none() {
            return brackets_of(&piece);
        }
        rest = piece.next;
    }
    None
}
