//! Declarations with what their numbers stand for.

ghost use Rattle.std.specs.Prelude.{◌≡◌, IfOk, map};
ghost use Rattle.vd_naming.specs.Settled.{settled, settled_class, settled_declaration};

use crate::table::Settling;
use std::alloc::{AllocError, Global};
use vd_bytes::Text;
use vd_declarations::{Class, DeclId, Declaration, Declarations, TypeId};

/// A class with what its numbers stand for.
fn settle_class(settling: &Settling, class: &Class) -> Class
    ensures { result ≡ settled_class settling.now class.now }
{
    match class {
        Class::ArrayType {
            index,
            element,
            element_mark,
        } => Class::ArrayType {
            index: TypeId::of(settling.number(index.number())),
            element: TypeId::of(settling.number(element.number())),
            element_mark: DeclId::of(settling.number(element_mark.number())),
        },
        Class::Subtype { mark } => Class::Subtype {
            mark: DeclId::of(settling.number(mark.number())),
        },
        Class::ActualFunction { actual } => Class::ActualFunction {
            actual: DeclId::of(settling.number(actual.number())),
        },
        other => *other,
    }
}

/// What some declarations stand for, in their order.
fn settle_list(
    alloc: Global,
    settling: &Settling,
    list: &[DeclId],
) -> Result<Declarations, AllocError>
    ensures { IfOk result (λ made. made ≡ map (settled settling.now) list.now) }
{
    let mut others = Vec::new(alloc);
    for id in list {
        others.push(DeclId::of(settling.number(id.number())))?;
    }
    Ok(Declarations::of(others))
}

/// A declaration with what its numbers stand for.
pub fn settle_declaration(
    alloc: Global,
    settling: &Settling,
    declared: &Declaration,
) -> Result<Declaration, AllocError>
    ensures { IfOk result (λ made. made ≡ settled_declaration settling.now declared.now) }
{
    let name = Text::from_slice(alloc, declared.name.as_slice())?;
    let wanted = Text::from_slice(alloc, declared.wanted.as_slice())?;
    let parameters = settle_list(alloc, settling, declared.parameters.as_slice())?;
    let generics = settle_list(alloc, settling, declared.generics.as_slice())?;
    Ok(Declaration {
        class: settle_class(settling, &declared.class),
        name,
        mark: settling.mark(&declared.mark),
        parameters,
        generics,
        inside: declared.inside,
        place: declared.place,
        made: declared.made,
        wanted,
    })
}
