//! Functions as their headers declare them.

ghost use Rattle.std.specs.Prelude.{◌≡◌, List, IfOk};
ghost use Rattle.vd_forest.specs.Forest.{Forest};
ghost use Rattle.vd_resolved.specs.declared.node.Resolved.{Resolved as Node};
ghost use Rattle.vd_name_entering.specs.Ended.{seen_ended};
ghost use Rattle.vd_naming.specs.Functions.{function_class, function_of, written_function, designator, function_of_body};

use std::alloc::{AllocError, Global};
use vd_bytes::{Place, Text};
use vd_declarations::{Class, DeclId, Declaration, Declarations, Made, RegionId, TypeId};
use vd_forest::Cursor;
use vd_forms::Form;
use vd_name_entering::Ended;
use vd_name_rows::{At, Names, Sort, Word};

/// What kind of function it is that has these generics.
fn function_class(generics: &[DeclId]) -> Class
    ensures { result ≡ function_class generics.now }
{
    if generics.is_empty() {
        Class::Function
    } else {
        Class::UninstantiatedFunction
    }
}

/// A function of a class, with the parameters and generics that its header's region has so far.
pub fn function_of(
    alloc: Global,
    names: &Names,
    class: Class,
    name: &[u8],
    place: Place,
    mark: Option<TypeId>,
    region: RegionId,
) -> Result<Declaration, AllocError>
    ensures { IfOk result (λ made. made ≡ function_of class (record { name = name.now; place = place }) mark region names.now) }
{
    let parameters = names.declared_in(alloc, region, Sort::Parameter)?;
    let generics = names.declared_in(alloc, region, Sort::Generic)?;
    let wanted = Text::from_slice(alloc, name)?;
    let name = Text::from_slice(alloc, name)?;
    Ok(Declaration {
        class,
        name,
        mark,
        parameters: Declarations::of(parameters),
        generics: Declarations::of(generics),
        inside: Some(region),
        place,
        made: Made::Written,
        wanted,
    })
}

/// The same with generics or without, as its header has some.
pub fn written_function(
    alloc: Global,
    names: &Names,
    name: &[u8],
    place: Place,
    mark: Option<TypeId>,
    region: RegionId,
) -> Result<Declaration, AllocError>
    ensures { IfOk result (λ made. made ≡ written_function (record { name = name.now; place = place }) mark region names.now) }
{
    let generics = names.declared_in(alloc, region, Sort::Generic)?;
    let class = function_class(generics.as_slice());
    function_of(alloc, names, class, name, place, mark, region)
}

/// The function with the name that was read last, and the type at hand.
pub(crate) fn function_read(
    alloc: Global,
    names: &Names,
    at: &At<'_>,
    region: RegionId,
) -> Result<Declaration, AllocError>
    ensures { IfOk result (λ made. made ≡ written_function (record { name = at.now.word; place = at.now.word_place }) at.now.mark region names.now) }
{
    let name = at.word.name(alloc)?;
    written_function(
        alloc,
        names,
        name.as_slice(),
        at.word_place,
        at.mark,
        region,
    )
}

/// The place of a designator that isn't there.
const NO_PLACE: Place = Place {
    file: 0,
    line: 0,
    column: 0,
};

/// The function whose designator is the first tree, with this type, which has no declaration but its body.
fn designated(
    alloc: Global,
    names: &Names,
    trees: &Cursor<'_, Form>,
    mark: Option<TypeId>,
    region: RegionId,
) -> Result<Declaration, AllocError>
    ensures { IfOk result (λ made. made ≡ written_function (designator trees.now) mark region names.now) }
{
    match trees.open() {
        None => written_function(alloc, names, &[], NO_PLACE, mark, region),
        Some(first) => {
            let word = Word {
                form: first.form,
                text: first.text,
            };
            let name = word.name(alloc)?;
            written_function(alloc, names, name.as_slice(), first.place, mark, region)
        }
    }
}

/// The function that a body declares, whose designator is its second part.
pub(crate) fn function_of_body(
    alloc: Global,
    names: &Names,
    ended: &Ended<'_, '_>,
) -> Result<Declaration, AllocError>
    ensures { (store : List (Forest Node)) → IfOk result (λ made. made ≡ function_of_body (seen_ended store names.now ended.now)) }
{
    let inner = ended.inner;
    let inside = ended.inside;
    let designator = ended.node.parts.next();
    designated(alloc, names, &designator, inner.at.result, inside.region)
}
