//! The texts of paths and scopes.

ghost use Rattle.std.specs.Prelude.{◌≡◌, ◌++◌, OnOk};
ghost use Rattle.std.specs.List.{flat_map};
ghost use Rattle.vd_trees.specs.Paths.{top_names, index_text, label_text, step_text, path_text, scope_text};
ghost use Rattle.vd_trace_text.specs.Names.{with_dot, label_with_dot, way_with_dots};

use std::alloc::AllocError;
use vd_trees::{Label, Level, Path, PathIndex, PathStep, Scope};

pub(crate) fn add_path(text: &mut Vec<u8>, path: &Path) -> Result<(), AllocError>
    ensures { OnOk result (text.new.items ≡ text.old.items ++ path_text path.now) }
{
    add_way(text, path.levels.as_slice(), path.generates.as_slice())?;
    text.extend_from_slice(path.object.as_slice())?;
    add_steps(text, path.rest.as_slice())
}

pub(crate) fn add_scope(text: &mut Vec<u8>, scope: &Scope) -> Result<(), AllocError>
    ensures { OnOk result (text.new.items ≡ text.old.items ++ scope_text scope.now) }
{
    let levels = scope.levels.as_slice();
    if levels.is_empty() {
        return text.extend_from_slice(scope.unit.as_slice());
    }
    add_way(text, levels, scope.generates.as_slice())?;
    let _dot = text.pop();
    Ok(())
}

// The names on the way to a place, each with a dot behind it.
fn add_way(text: &mut Vec<u8>, levels: &[Level], generates: &[Label]) -> Result<(), AllocError>
    ensures { OnOk result (text.new.items ≡ text.old.items ++ way_with_dots levels.now generates.now) }
{
    add_top(text, levels)?;
    for level in levels {
        add_labels(text, level.labels.as_slice())?;
    }
    add_labels(text, generates)
}

fn add_top(text: &mut Vec<u8>, levels: &[Level]) -> Result<(), AllocError>
    ensures { OnOk result (text.new.items ≡ text.old.items ++ flat_map with_dot (top_names levels.now)) }
{
    let Some(top) = levels.first() else {
        return Ok(());
    };
    text.extend_from_slice(top.entity.as_slice())?;
    text.push(b'.')?;
    Ok(())
}

fn add_labels(text: &mut Vec<u8>, labels: &[Label]) -> Result<(), AllocError>
    ensures { OnOk result (text.new.items ≡ text.old.items ++ flat_map label_with_dot labels.now) }
{
    for label in labels {
        add_label(text, label)?;
        text.push(b'.')?;
    }
    Ok(())
}

fn add_label(text: &mut Vec<u8>, label: &Label) -> Result<(), AllocError>
    ensures { OnOk result (text.new.items ≡ text.old.items ++ label_text label.now) }
{
    text.extend_from_slice(label.name.as_slice())?;
    match &label.index {
        None => Ok(()),
        Some(index) => add_index(text, index),
    }
}

fn add_index(text: &mut Vec<u8>, index: &PathIndex) -> Result<(), AllocError>
    ensures { OnOk result (text.new.items ≡ text.old.items ++ index_text index.now) }
{
    text.push(b'(')?;
    text.extend_from_slice(index.text.as_slice())?;
    text.push(b')')?;
    Ok(())
}

fn add_steps(text: &mut Vec<u8>, steps: &[PathStep]) -> Result<(), AllocError>
    ensures { OnOk result (text.new.items ≡ text.old.items ++ flat_map step_text steps.now) }
{
    for step in steps {
        add_step(text, step)?;
    }
    Ok(())
}

fn add_step(text: &mut Vec<u8>, step: &PathStep) -> Result<(), AllocError>
    ensures { OnOk result (text.new.items ≡ text.old.items ++ step_text step.now) }
{
    match step {
        PathStep::Field(name) => {
            text.push(b'.')?;
            text.extend_from_slice(name.as_slice())
        }
        PathStep::Index(index) => add_index(text, index),
    }
}
