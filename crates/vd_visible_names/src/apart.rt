//! Expressions in which one part has another type than one that is known.

ghost use Rattle.std.specs.Prelude.{◌≡◌, IfOk};
ghost use Rattle.std.specs.List.{filter};
ghost use Rattle.vd_visible_names.specs.Apart.{is_other as differs};

use std::alloc::{AllocError, Global};
use vd_declarations::TypeId;
use vd_forest::Opened;
use vd_forms::Form;
use vd_overloads::Env;
use vd_readings::Language;
use vd_states::{State, Way};

/// The byte that stands in front of the text of the part. It stands in no text otherwise.
pub(crate) const MARKED: u8 = 1;

/// A place of a design, and the type that the part that is marked there doesn't have.
#[derive(Drop)]
pub(crate) struct Apart<'a> {
    pub(crate) env: Env<'a>,
    pub(crate) mark: TypeId,
}

/// Whether a way gives another type.
fn is_other(way: &Way, mark: TypeId) -> bool
    ensures { result ≡ differs mark way.now }
{
    match way.mark {
        Some(own) => own != mark,
        None => true,
    }
}

/// Those of some ways that give another type.
fn others(alloc: Global, ways: &[Way], mark: TypeId) -> Result<Vec<Way>, AllocError>
    ensures { IfOk result (λ found. found.items ≡ filter (differs mark) ways.now) }
{
    let mut found = Vec::new(alloc);
    for way in ways {
        if is_other(way, mark) {
            found.push(*way)?;
        }
    }
    Ok(found)
}

impl<'a> Language for Apart<'a> {
    ghost use Rattle.vd_overloads.specs.Environment.{rules_at};
    ghost use Rattle.vd_visible_names.specs.Apart.{apart};

    ghost rules = { λ a. apart a.mark (rules_at a.env.surroundings) };

    fn ends(&self, state: State) -> bool {
        self.env.ends(state)
    }

    fn ways(
        &self,
        alloc: Global,
        state: State,
        node: &Opened<'_, Form>,
    ) -> Result<Vec<Way>, AllocError> {
        match node.text {
            [MARKED, text @ ..] => {
                let bare = Opened {
                    form: node.form,
                    text,
                    place: node.place,
                    parts: node.parts.fork(),
                    next: node.next.fork(),
                };
                let ways = self.env.ways(alloc, state, &bare)?;
                others(alloc, ways.as_slice(), self.mark)
            }
            _ => self.env.ways(alloc, state, node),
        }
    }
}
