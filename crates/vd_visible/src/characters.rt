//! The characters among the literals of an enumeration type.

ghost use Rattle.std.specs.Prelude.{◌≡◌, ◌<◌, ◌∷◌, ◌||◌, ℕ, [], true, false, length, slice_index_or};
ghost use Rattle.std.specs.List.{list_all};
ghost use Rattle.std.specs.Str.{bytes_eq};
ghost use Rattle.vd_visible.specs.Sights.{sight_from, class_of};
ghost use Rattle.vd_visible.specs.Types.{is_some_type, letter_name, has_character, spells, element_of as element};

use crate::surroundings::Surroundings;
use crate::types::element_of;
use vd_declarations::{Class, DeclId, TypeId};

/// The character of a literal's name.
fn letter_in(name: &[u8]) -> Option<u8>
    ensures { (c : ℕ) → bytes_eq name.now (letter_name (c ∷ [])) ≡ is_some_type c result }
{
    if name.len() != 3 || name[0] != b'\'' || name[2] != b'\'' {
        return None;
    }
    Some(name[1])
}

/// A table with no mark.
fn no_marks() -> [bool; 256]
    ensures { (c : ℕ) → slice_index_or result c false ≡ false }
{
    [false; 256]
}

/// Marks the character of a literal's name.
fn mark_letter(found: &mut [bool; 256], name: &[u8])
    ensures { (c : ℕ) → slice_index_or found.new c false ≡ (slice_index_or found.old c false || bytes_eq name.now (letter_name (c ∷ []))) }
{
    if let Some(letter) = letter_in(name) {
        found[letter as usize] = true;
    }
}

impl<'a> Surroundings<'a> {
    /// Which characters are among the literals of a type.
    fn characters_of(&self, mark: TypeId) -> [bool; 256]
        ensures { (c : ℕ) → c < 256 → slice_index_or result c false ≡ has_character (sight_from self.now) mark c }
    {
        let mut found = no_marks();
        let mut next = mark.number() as u64 + 1;
        while next <= u32::MAX as u64 {
            let literal = DeclId::of(next as u32);
            if !self.is_literal_of(mark, literal) {
                return found;
            }
            mark_letter(&mut found, self.name_of(literal));
            next += 1;
        }
        found
    }

    /// Whether a type has each of these characters among its literals.
    fn has_characters(&self, mark: TypeId, text: &[u8]) -> bool
        ensures { result ≡ list_all (has_character (sight_from self.now) mark) text.now }
    {
        let found = self.characters_of(mark);
        for character in text {
            if !found[*character as usize] {
                return false;
            }
        }
        true
    }

    /// Whether a literal in quotation marks is of an array type.
    pub fn spells(&self, array: TypeId, text: &[u8]) -> bool
        ensures { result ≡ spells (sight_from self.now) (element (class_of (sight_from self.now) array)) text.now }
    {
        let Some(element) = element_of(self.class_of_type(array)) else {
            return false;
        };
        match self.class_of_type(element) {
            Class::EnumerationType => self.has_characters(element, text),
            _ => false,
        }
    }
}
