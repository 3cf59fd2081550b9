//! The architecture of an instance.

ghost use Rattle.std.specs.Prelude.{◌≡◌, None, IfOk, OnOk};
ghost use Rattle.vd_forest.specs.Forest.{nothing, more};
ghost use Rattle.vd_forest.specs.Store.{Holds, Extends};
ghost use Rattle.vd_naming.specs.Expressions.{resolved};
ghost use Rattle.vd_naming.specs.Ports.{not_in_front as stands_behind, default_architecture as default_refused, architecture_named as named_architecture, refused_architecture as architecture_refused, instance_architecture as instance_architecture_step};
ghost use Rattle.vd_naming.specs.Units.{region_inside as inside_of_declaration};
ghost use Rattle.vd_name_entering.specs.Made.{IsMade};

use std::alloc::{AllocError, Global};
use vd_bytes::{Place, Refused};
use vd_declarations::{DeclId, RegionId};
use vd_forest::{Opened, Store};
use vd_forms::Form;
use vd_name_entering::{Made, Units, add_node, found_in, region_inside};
use vd_name_rows::{At, Names, Sort};
use vd_naming::broken_if;
use vd_resolved::Resolved;

/// Whether there is no unit of this number, or it doesn't stand in front of another.
fn not_in_front(last: Option<u32>, unit: u32) -> bool
    ensures { result ≡ stands_behind last unit }
{
    match last {
        None => true,
        Some(number) => !(number < unit),
    }
}

/// What is refused where no architecture is named: one of the entity has to stand in front of the unit, the last one in the whole design.
fn default_architecture(
    alloc: Global,
    units: &Units<'_>,
    at: &At<'_>,
) -> Result<Option<Refused>, AllocError>
    ensures { IfOk result (λ refused. refused ≡ default_refused units.now at.now at.now.named) }
{
    if at.named.is_none() {
        return Ok(None);
    }
    let name = at.word.name(alloc)?;
    let last = units.last_architecture(name.as_slice())?;
    Ok(broken_if(not_in_front(last, at.unit), 302, at.word_place))
}

/// The architecture that an entity has under a name.
fn architecture_named(
    alloc: Global,
    names: &Names,
    entity: Option<DeclId>,
    name: &[u8],
) -> Result<Option<DeclId>, AllocError>
    ensures { IfOk result (λ found. found ≡ named_architecture (inside_of_declaration names.now entity) names.now name.now) }
{
    let Some(inside) = region_inside(names, entity) else {
        return Ok(None);
    };
    let Some(number) = inside.number().checked_add(1) else {
        return Err(AllocError);
    };
    found_in(alloc, names, RegionId::of(number), Sort::Any, name)
}

/// What is refused of the name of an architecture, where the entity is known.
fn refused_architecture(
    entity: &Option<DeclId>,
    found: &Option<DeclId>,
    place: Place,
) -> Option<Refused>
    ensures { result ≡ architecture_refused entity.now found.now place }
{
    broken_if(entity.is_some() && found.is_none(), 302, place)
}

/// The architecture that is named behind the entity.
fn named(
    alloc: Global,
    names: &Names,
    at: &At<'_>,
    node: &Opened<'_, Form>,
    out: &mut Store<Resolved>,
) -> Result<Made, AllocError>
    ensures found { IfOk result (λ made. Holds out.new made.tree
        (more (resolved node.now.form (named_architecture (inside_of_declaration names.now at.now.named) names.now node.now.text.now) None) node.now.text.now node.now.place nothing nothing)) }
    ensures first { IfOk result (λ made. made.first
        ≡ architecture_refused at.now.named (named_architecture (inside_of_declaration names.now at.now.named) names.now node.now.text.now) node.now.place) }
    ensures extends { Extends out.old out.new }
{
    let found = architecture_named(alloc, names, at.named, node.text)?;
    let first = refused_architecture(&at.named, &found, node.place);
    let tree = add_node(node, found, None, 0, out)?;
    Ok(Made { tree, first })
}

/// The architecture of an instance. Where none is named, it is the last one of the entity in the whole design.
pub fn instance_architecture(
    alloc: Global,
    names: &Names,
    units: &Units<'_>,
    at: &At<'_>,
    node: &Opened<'_, Form>,
    out: &mut Store<Resolved>,
) -> Result<Made, AllocError>
    ensures is { IfOk result (λ made. IsMade out.new names.now made
        (instance_architecture_step units.now at.now names.now node.now.form node.now.text.now node.now.place)) }
    ensures at { OnOk result ((instance_architecture_step units.now at.now names.now node.now.form node.now.text.now node.now.place).at ≡ at.now) }
    ensures extends { Extends out.old out.new }
{
    match node.form {
        Form::Absent => {
            let first = default_architecture(alloc, units, at)?;
            let tree = add_node(node, None, None, 0, out)?;
            Ok(Made { tree, first })
        }
        _ => {
            let made = named(alloc, names, at, node, out)?;
            Ok(made)
        }
    }
}
