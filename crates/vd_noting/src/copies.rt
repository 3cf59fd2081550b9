//! Copies of declarations.

ghost use Rattle.std.specs.Prelude.{◌≡◌, IfOk};

use std::alloc::{AllocError, Global};
use vd_bytes::Text;
use vd_declarations::{Declaration, Declarations};

/// The same numbers once more.
fn copied_numbers(alloc: Global, declarations: &Declarations) -> Result<Declarations, AllocError>
    ensures { IfOk result (λ copy. copy ≡ declarations.now) }
{
    let numbers = Vec::from_slice(alloc, declarations.as_slice())?;
    Ok(Declarations::of(numbers))
}

/// The same declaration once more.
pub fn copied(alloc: Global, declaration: &Declaration) -> Result<Declaration, AllocError>
    ensures { IfOk result (λ copy. copy ≡ declaration.now) }
{
    Ok(Declaration {
        class: declaration.class,
        name: Text::from_slice(alloc, declaration.name.as_slice())?,
        mark: declaration.mark,
        parameters: copied_numbers(alloc, &declaration.parameters)?,
        generics: copied_numbers(alloc, &declaration.generics)?,
        inside: declaration.inside,
        place: declaration.place,
        made: declaration.made,
        wanted: Text::from_slice(alloc, declaration.wanted.as_slice())?,
    })
}

/// The same declarations once more, in their order.
pub fn all_copied(
    alloc: Global,
    declarations: &[Declaration],
) -> Result<Vec<Declaration>, AllocError>
    ensures { IfOk result (λ copies. copies.items ≡ declarations.now) }
{
    let mut copies = Vec::with_capacity(alloc, declarations.len())?;
    for declaration in declarations {
        copies.push(copied(alloc, declaration)?)?;
    }
    Ok(copies)
}
