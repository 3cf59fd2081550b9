//! Paths and scopes of a top that has no instances.

ghost use Rattle.std.specs.Prelude.{◌≡◌, ℕ, List, [], ◌∷◌, ◌++◌, map, OnOk, IfOk};
ghost use Rattle.vd_first_elaboration.specs.Ports.{Mode, ports_named, declared_ports};
ghost use Rattle.vd_first_elaboration.specs.Elaboration.{port_names};
ghost use Rattle.vd_first_runs.specs.Places.{level_at, scope_at, path_at};

use std::alloc::{AllocError, Global};
use vd_bytes::Text;
use vd_first_trees::Form;
use vd_forest::Cursor;
use vd_trees::{Labels, Level, Levels, Path, PathSteps, Scope};

// The one level of a top.
fn levels(alloc: Global, entity: &[u8], architecture: &[u8]) -> Result<Levels, AllocError>
    ensures { IfOk result (λ levels. levels ≡ level_at entity.now architecture.now ∷ []) }
{
    let mut levels = Vec::new(alloc);
    levels.push(Level {
        labels: Labels::of(Vec::new(alloc)),
        entity: Text::from_slice(alloc, entity)?,
        architecture: Text::from_slice(alloc, architecture)?,
    })?;
    Ok(Levels::of(levels))
}

/// Where the processes of a top stand.
pub fn scope(alloc: Global, entity: &[u8], architecture: &[u8]) -> Result<Scope, AllocError>
    ensures { IfOk result (λ scope. scope ≡ scope_at entity.now architecture.now) }
{
    Ok(Scope {
        levels: levels(alloc, entity, architecture)?,
        generates: Labels::of(Vec::new(alloc)),
        unit: Text::from_slice(alloc, b"")?,
    })
}

// The path of an object of a top.
fn path(
    alloc: Global,
    entity: &[u8],
    architecture: &[u8],
    object: &[u8],
) -> Result<Path, AllocError>
    ensures { IfOk result (λ path. path ≡ path_at entity.now architecture.now object.now) }
{
    Ok(Path {
        levels: levels(alloc, entity, architecture)?,
        generates: Labels::of(Vec::new(alloc)),
        object: Text::from_slice(alloc, object)?,
        rest: PathSteps::of(Vec::new(alloc)),
    })
}

// Adds the paths of some objects.
fn add_paths(
    alloc: Global,
    paths: &mut Vec<Path>,
    entity: &[u8],
    architecture: &[u8],
    identifiers: &Cursor<'_, Form>,
) -> Result<(), AllocError>
    ensures { OnOk result ((mode : Mode) (mark : List ℕ)
        → paths.new.items ≡ paths.old.items ++ map (path_at entity.now architecture.now) (port_names (ports_named identifiers.now mode mark))) }
{
    let mut left = identifiers.fork();
    while let Some(first) = left.open() {
        paths.push(path(alloc, entity, architecture, first.text)?)?;
        left = first.next;
    }
    Ok(())
}

/// The paths of the ports of some declarations, in order.
pub fn port_paths(
    alloc: Global,
    entity: &[u8],
    architecture: &[u8],
    declarations: &Cursor<'_, Form>,
) -> Result<Vec<Path>, AllocError>
    ensures { IfOk result (λ v. v.items ≡ map (path_at entity.now architecture.now) (port_names (declared_ports declarations.now))) }
{
    let mut paths = Vec::new(alloc);
    let mut left = declarations.fork();
    while let Some(first) = left.open() {
        add_paths(
            alloc,
            &mut paths,
            entity,
            architecture,
            &first.parts.parts(),
        )?;
        left = first.next;
    }
    Ok(paths)
}
