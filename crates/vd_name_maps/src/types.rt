//! The actuals of types in a map.

ghost use Rattle.std.specs.Prelude.{◌≡◌, map, IfOk};
ghost use Rattle.vd_forest.specs.Forest.{nothing, with_next};
ghost use Rattle.vd_naming.specs.Actuals.{paired as pair_of, type_for as type_of_element, types_given as types_of};
ghost use Rattle.vd_name_maps.specs.Seen.{seen_element};
ghost use Rattle.vd_name_maps.specs.Pairs.{listed};

use crate::Element;
use std::alloc::{AllocError, Global};
use vd_declarations::{Class, DeclId};
use vd_forest::Store;
use vd_name_expressions::expression_reading::read_first_mark;
use vd_name_expressions::mark_declared;
use vd_name_rows::{Actual, At, Names};

/// A generic with what stands for it, where that is known.
pub(crate) fn paired(generic: DeclId, found: Option<DeclId>) -> Option<Actual>
    ensures { listed result ≡ pair_of generic found }
{
    match found {
        Some(actual) => Some(Actual { generic, actual }),
        None => None,
    }
}

/// What stands for a generic type in an element. The trees that are read on the way are let go.
fn type_for(
    alloc: Global,
    names: &Names,
    at: &At<'_>,
    element: &Element<'_>,
) -> Result<Option<Actual>, AllocError>
    ensures { IfOk result (λ found. listed found ≡ type_of_element at.now names.now (with_next element.now.actual nothing) element.now.generic) }
{
    let Some(generic) = element.generic else {
        return Ok(None);
    };
    if !matches!(names.class_of(generic), Class::GenericType) {
        return Ok(None);
    }
    let mut scratch = Store::new(alloc);
    let read = read_first_mark(alloc, names, at, &element.actual, &mut scratch)?;
    let declared = mark_declared(&scratch.cursor(read.tree));
    Ok(paired(generic, declared))
}

/// The actuals of generic types, in the order of the elements.
pub fn types_given(
    alloc: Global,
    names: &Names,
    at: &At<'_>,
    elements: &[Element<'_>],
) -> Result<Vec<Actual>, AllocError>
    ensures { IfOk result (λ given. given.items ≡ types_of at.now names.now (map seen_element elements.now)) }
{
    let mut given = Vec::new(alloc);
    for element in elements {
        let found = type_for(alloc, names, at, element)?;
        if let Some(pair) = found {
            given.push(pair)?;
        }
    }
    Ok(given)
}
