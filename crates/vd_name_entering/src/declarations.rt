//! Declarations that are written in a file.

ghost use Rattle.std.specs.Prelude.{◌≡◌, IfOk};
ghost use Rattle.vd_name_rows.specs.Entering.{declaration_of};

use std::alloc::{AllocError, Global};
use vd_bytes::{Place, Text};
use vd_declarations::{Class, Declaration, Declarations, Made, TypeId};
use vd_name_rows::At;

/// A declaration of a class, a name and a type, at a place. It has no parameters, no generics and no region inside.
pub fn declaration_of(
    alloc: Global,
    class: Class,
    name: &[u8],
    place: Place,
    mark: Option<TypeId>,
) -> Result<Declaration, AllocError>
    ensures { IfOk result (λ made. made ≡ declaration_of class (record { name = name.now; place = place }) mark) }
{
    let wanted = Text::from_slice(alloc, name)?;
    let name = Text::from_slice(alloc, name)?;
    Ok(Declaration {
        class,
        name,
        mark,
        parameters: Declarations::of(Vec::new(alloc)),
        generics: Declarations::of(Vec::new(alloc)),
        inside: None,
        place,
        made: Made::Written,
        wanted,
    })
}

/// A declaration of a class and a type, with the name that was read last at a place.
pub fn named_at(
    alloc: Global,
    class: Class,
    at: &At<'_>,
    mark: Option<TypeId>,
) -> Result<Declaration, AllocError>
    ensures { IfOk result (λ made. made ≡ declaration_of class (record { name = at.now.word; place = at.now.word_place }) mark) }
{
    let name = at.word.name(alloc)?;
    declaration_of(alloc, class, name.as_slice(), at.word_place, mark)
}
