//! What is given as a list of lines: the package, the kind, the name, and marks.

use crate::world::{World, add_label, given_regions, text_of, unlabelled};
use std::alloc::{AllocError, Global};
use std::io;
use vd_declarations::{Class, DeclId, Declaration, TypeId};
use vd_trees::Revision;

/// The word of a class that is listed.
fn word_of(class: Class) -> &'static str {
    match class {
        Class::EnumerationType => "enumeration",
        Class::EnumerationLiteral => "literal",
        Class::IntegerType => "integer",
        Class::PhysicalType => "physical",
        Class::PhysicalUnit => "unit",
        Class::Subtype { .. } => "subtype",
        Class::ArrayType { .. } => "array",
        Class::PredefinedOperator => "predefined",
        Class::Function => "function",
        Class::Library => "library",
        Class::Package => "package",
        _ => "",
    }
}

/// What a class names besides: the mark of a subtype, or of the elements of an array type.
fn named_by(class: Class) -> Option<DeclId> {
    match class {
        Class::Subtype { mark } => Some(mark),
        Class::ArrayType { element_mark, .. } => Some(element_mark),
        _ => None,
    }
}

/// Adds the name of a declaration behind a text.
fn add_name(world: &World, between: &str, id: DeclId, text: &mut String) -> Result<(), AllocError> {
    text.push_str(between)?;
    if world.regions.is_declaration(id) {
        text.push_str(text_of(world.regions.declaration(id).name.as_slice()))?;
    }
    Ok(())
}

/// Adds the name of a type, where there is one.
fn add_mark(
    world: &World,
    between: &str,
    mark: Option<TypeId>,
    text: &mut String,
) -> Result<(), AllocError> {
    match mark {
        Some(mark) => add_name(world, between, DeclId::of(mark.number()), text),
        None => Ok(()),
    }
}

/// Adds the name and the mark of a parameter.
fn add_parameter(world: &World, id: DeclId, text: &mut String) -> Result<(), AllocError> {
    add_name(world, " ", id, text)?;
    if world.regions.is_declaration(id) {
        add_mark(world, ":", world.regions.declaration(id).mark, text)?;
    }
    Ok(())
}

/// Adds the line of a declaration.
fn add_line(world: &World, declared: &Declaration, text: &mut String) -> Result<(), AllocError> {
    text.push_str(word_of(declared.class))?;
    text.push(' ')?;
    text.push_str(text_of(declared.name.as_slice()))?;
    for parameter in declared.parameters.as_slice() {
        add_parameter(world, *parameter, text)?;
    }
    if let Some(named) = named_by(declared.class) {
        add_name(world, " of ", named, text)?;
    }
    add_mark(world, " ", declared.mark, text)
}

/// The line of a declaration.
fn line_of(alloc: Global, world: &World, declared: &Declaration) -> Result<String, AllocError> {
    let mut text = String::new(alloc);
    add_line(world, declared, &mut text)?;
    Ok(text)
}

/// The lines of all that is given but operands.
fn lines_of(alloc: Global, world: &World) -> Result<Vec<String>, AllocError> {
    let mut lines = Vec::new(alloc);
    for number in 0..4294967295u32 {
        let id = DeclId::of(number);
        if !world.regions.is_declaration(id) {
            break;
        }
        let declared = world.regions.declaration(id);
        if !word_of(declared.class).is_empty() {
            lines.push(line_of(alloc, world, declared)?)?;
        }
    }
    Ok(lines)
}

/// The lines of what is given in a revision.
fn given_lines(alloc: Global, revision: Revision) -> Result<Vec<String>, AllocError> {
    let world = unlabelled(alloc, given_regions(alloc, revision)?);
    lines_of(alloc, &world)
}

/// The lines of a text but comments.
fn listed_lines(alloc: Global, text: &str) -> Result<Vec<String>, AllocError> {
    let mut lines = Vec::new(alloc);
    for line in text.lines() {
        if !line.starts_with("--") && !line.is_empty() {
            add_label(alloc, &mut lines, line)?;
        }
    }
    Ok(lines)
}

/// Says which lines aren't among others, and how many there are.
fn say_missing(
    rt: HostRuntime,
    front: &str,
    lines: &[String],
    others: &[String],
) -> io::Result<usize> {
    let mut count: usize = 0;
    for line in lines {
        if !others.contains(line) {
            println!(rt; "{front}: {line}")?;
            count = count.saturating_add(1);
        }
    }
    Ok(count)
}

/// Says which lines of a list are not given, and which of what is given the list lacks.
pub fn compare_given(
    rt: HostRuntime,
    revision: Revision,
    name: &str,
    text: &str,
) -> anyhow::Result<()> {
    let given = given_lines(rt.alloc(), revision)?;
    let listed = listed_lines(rt.alloc(), text)?;
    let more = say_missing(rt, "not given", &listed, &given)?;
    let fewer = say_missing(rt, "not in the list", &given, &listed)?;
    let others = more.saturating_add(fewer);
    println!(rt;
        "{name}: {} lines, {} given, {others} others",
        listed.len(),
        given.len()
    )?;
    Ok(())
}
