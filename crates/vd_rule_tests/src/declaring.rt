//! Steps that declare something in the region that the steps fill.

ghost use Rattle.std.specs.Prelude.{◌≡◌};
ghost use Rattle.vd_declarations.specs.declared.classes.Class.TheVariants as Class;

use crate::world::World;
use anyhow::bail;
use std::alloc::Global;
use vd_declarations::{Class, DeclId, RegionId, TypeId};
use vd_predefined::declare_operators;

/// Enters a declaration of this class where the steps are.
fn put(
    alloc: Global,
    world: &mut World,
    class: Class,
    name: &str,
    mark: Option<TypeId>,
) -> anyhow::Result<DeclId> {
    let here = world.here;
    let id = world.enter(alloc, here, class, name, mark, Vec::new(alloc), None)?;
    Ok(id)
}

/// An enumeration type, its literals and its operators.
fn enumeration(
    alloc: Global,
    world: &mut World,
    name: &str,
    literals: &[&str],
) -> anyhow::Result<()> {
    let made = put(alloc, world, Class::EnumerationType, name, None)?;
    let own = TypeId::of(made.number());
    for literal in literals {
        put(alloc, world, Class::EnumerationLiteral, literal, Some(own))?;
    }
    let here = world.here;
    if !world.regions.is_region(here) {
        bail!("there is no such region");
    }
    if declare_operators(alloc, &mut world.regions, here, own, Class::EnumerationType).is_err() {
        bail!("the operators of {name} can't be entered");
    }
    Ok(())
}

/// The class of an array type.
fn array_class(index: TypeId, element: TypeId, element_mark: DeclId) -> Class
    ensures { result ≡ Class.ArrayType index element element_mark }
{
    Class::ArrayType {
        index,
        element,
        element_mark,
    }
}

/// An array type and its operators.
fn array(
    alloc: Global,
    world: &mut World,
    name: &str,
    index: &str,
    element: &str,
) -> anyhow::Result<()> {
    let index_mark = world.find(alloc, index)?;
    let index = world.base(index_mark)?;
    let element_mark = world.find(alloc, element)?;
    let element = world.base(element_mark)?;
    let made = put(
        alloc,
        world,
        array_class(index, element, element_mark),
        name,
        None,
    )?;
    let here = world.here;
    if !world.regions.is_region(here) {
        bail!("there is no such region");
    }
    if !world.regions.is_declaration(DeclId::of(index.number())) {
        bail!("there is no such type");
    }
    if !world.regions.is_declaration(DeclId::of(element.number())) {
        bail!("there is no such type");
    }
    let own = TypeId::of(made.number());
    let class = array_class(index, element, element_mark);
    if declare_operators(alloc, &mut world.regions, here, own, class).is_err() {
        bail!("the operators of {name} can't be entered");
    }
    Ok(())
}

/// A name with its mark in a region: `name:mark`.
fn member(
    alloc: Global,
    world: &mut World,
    region: RegionId,
    is_parameter: bool,
    word: &str,
) -> anyhow::Result<DeclId> {
    let Some((name, mark)) = word.split_once(':') else {
        bail!("{word} has no mark");
    };
    let mark = world.find(alloc, mark)?;
    let base = world.base(mark)?;
    let class = if is_parameter {
        Class::Parameter
    } else {
        Class::RecordElement
    };
    let id = world.enter(
        alloc,
        region,
        class,
        name,
        Some(base),
        Vec::new(alloc),
        None,
    )?;
    Ok(id)
}

/// Names with marks in a region.
fn members(
    alloc: Global,
    world: &mut World,
    region: RegionId,
    are_parameters: bool,
    words: &[&str],
) -> anyhow::Result<Vec<DeclId>> {
    let mut made = Vec::new(alloc);
    for word in words {
        let id = member(alloc, world, region, are_parameters, word)?;
        made.push(id)?;
    }
    Ok(made)
}

/// A record type, its elements and its operators.
fn record_type(
    alloc: Global,
    world: &mut World,
    name: &str,
    elements: &[&str],
) -> anyhow::Result<()> {
    let here = world.here;
    let inside = world.nest(here)?;
    world.here = here;
    let ids = members(alloc, world, inside, false, elements)?;
    if world.regions.is_region(inside) {
        world.regions.close(inside);
    }
    let made = world.enter(
        alloc,
        here,
        Class::RecordType,
        name,
        None,
        ids,
        Some(inside),
    )?;
    if !world.regions.is_region(here) {
        bail!("there is no such region");
    }
    let own = TypeId::of(made.number());
    if declare_operators(alloc, &mut world.regions, here, own, Class::RecordType).is_err() {
        bail!("the operators of {name} can't be entered");
    }
    Ok(())
}

/// A function with parameters.
fn function(
    alloc: Global,
    world: &mut World,
    name: &str,
    returned: &str,
    parameters: &[&str],
) -> anyhow::Result<()> {
    let here = world.here;
    let inside = world.nest(here)?;
    world.here = here;
    let ids = members(alloc, world, inside, true, parameters)?;
    let mark = world.find(alloc, returned)?;
    let base = world.base(mark)?;
    world.enter(
        alloc,
        here,
        Class::Function,
        name,
        Some(base),
        ids,
        Some(inside),
    )?;
    Ok(())
}

/// An object, or a subtype.
fn object(
    alloc: Global,
    world: &mut World,
    kind: &str,
    name: &str,
    mark: &str,
) -> anyhow::Result<()> {
    let mark = world.find(alloc, mark)?;
    let base = world.base(mark)?;
    let class = match kind {
        "constant" => Class::Constant,
        "signal" => Class::Signal,
        "variable" => Class::Variable,
        "subtype" => Class::Subtype { mark },
        _ => bail!("{kind} is no step"),
    };
    put(alloc, world, class, name, Some(base))?;
    Ok(())
}

/// Carries out a step that declares something.
pub fn declare(alloc: Global, world: &mut World, words: &[&str]) -> anyhow::Result<()> {
    match words {
        ["enumeration", name, literals @ ..] => enumeration(alloc, world, name, literals),
        ["array", name, index, element] => array(alloc, world, name, index, element),
        ["record", name, elements @ ..] => record_type(alloc, world, name, elements),
        ["function", name, result, parameters @ ..] => {
            function(alloc, world, name, result, parameters)
        }
        [kind, name, mark] => object(alloc, world, kind, name, mark),
        _ => bail!("a step has other words"),
    }
}
