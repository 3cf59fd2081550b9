//! What a function declares one by one: its generics and its parameters.

ghost use Rattle.std.specs.Prelude.{◌≡◌, ◌++◌, ◌∷◌, [], IfOk, OnOk};
ghost use Rattle.vd_body_rules.specs.Items.{first_trees, items_of};
ghost use Rattle.vd_forest.specs.Forest.{skipped};
ghost use Rattle.vd_meaning.specs.Facets.{nth};
ghost use Rattle.vd_meaning.specs.Meanings.{made, meanings};
ghost use Rattle.vd_meaning.specs.Names.{number_or};
ghost use Rattle.vd_meaning.specs.Tables.{Table};
ghost use Rattle.vd_value_rules.specs.Bodies.{declared_of as declared_by_parts, each_declared, generic_in as generic_by_form, generics_in, parameters_in};
ghost use Rattle.vd_value_rules.specs.Designs.{Design};
ghost use Rattle.vd_value_rules.specs.Knowledge.{meaning_at};

use crate::identified::text_of_first;
use crate::words::texts_of_first;
use std::alloc::{AllocError, Global};
use vd_bytes::Text;
use vd_declarations::DeclId;
use vd_forest::{Cursor, Opened};
use vd_forms::Form;
use vd_function_names::numbers::numbers_of_first;
use vd_operations::number_made;
use vd_resolved::Resolved;

/// What a function declares: its form, its name, its number, and the trees that count, which are the first ones here, as many as
/// `count` says.
#[derive(Drop)]
pub struct Item<'a> {
    pub form: Form,
    pub name: Text,
    pub number: u32,
    pub trees: Cursor<'a, Resolved>,
    pub count: u8,
}

/// Puts what is declared under these names and numbers behind the others.
fn add_each<'a>(
    alloc: Global,
    found: &mut Vec<Item<'a>>,
    form: Form,
    names: &[Text],
    numbers: &[DeclId],
    trees: &Cursor<'a, Resolved>,
    count: u8,
) -> Result<(), AllocError>
    ensures { OnOk result (items_of found.new.items
        ≡ items_of found.old.items ++ each_declared form names.now numbers.now (first_trees count trees.now)) }
{
    let mut k = 0;
    while k < names.len() && k < numbers.len() {
        let name = Text::from_slice(alloc, names[k].as_slice())?;
        found.push(Item {
            form,
            name,
            number: numbers[k].number(),
            trees: trees.fork(),
            count,
        })?;
        k += 1;
    }
    Ok(())
}

/// Puts what a node declares, whose second part is a list of identifiers, behind the others.
fn add_listed<'a>(
    alloc: Global,
    found: &mut Vec<Item<'a>>,
    form: Form,
    parts: &Cursor<'a, Resolved>,
    count: u8,
) -> Result<(), AllocError>
    ensures { OnOk result ((d : Design) → items_of found.new.items
        ≡ items_of found.old.items
        ++ each_declared form (meaning_at d 1 parts.now).texts
        (meaning_at d 1 parts.now).numbers (first_trees count (skipped 3 parts.now))) }
{
    let list = parts.skip(1);
    let names = texts_of_first(alloc, &list)?;
    let numbers = numbers_of_first(alloc, &list)?;
    add_each(
        alloc,
        found,
        form,
        names.as_slice(),
        numbers.as_slice(),
        &parts.skip(3),
        count,
    )
}

/// Puts parameters behind the others.
fn add_parameters<'a>(
    alloc: Global,
    found: &mut Vec<Item<'a>>,
    parameters: &Cursor<'a, Resolved>,
) -> Result<(), AllocError>
    ensures { OnOk result ((d : Design) → items_of found.new.items ≡ items_of found.old.items ++ parameters_in d parameters.now) }
{
    let mut rest = parameters.fork();
    while let Some(first) = rest.open() {
        add_listed(alloc, found, Form::ParameterDeclaration, &first.parts, 1)?;
        rest = first.next;
    }
    Ok(())
}

/// Puts a generic behind the others that is called by the first of some trees.
fn add_named<'a>(
    alloc: Global,
    found: &mut Vec<Item<'a>>,
    node: &Resolved,
    name: &Cursor<'a, Resolved>,
    trees: &Cursor<'a, Resolved>,
    count: u8,
) -> Result<(), AllocError>
    ensures { OnOk result ((t : Table) → items_of found.new.items
        ≡ items_of found.old.items ++ record {
          form = node.now.form;
          name = (nth 0 (meanings t name.now)).text;
          number = number_or (made node.now
              (nth 0 (meanings t name.now)));
          trees = first_trees count trees.now;
        } ∷ []) }
{
    let text = Text::from_slice(alloc, text_of_first(name))?;
    found.push(Item {
        form: node.form,
        name: text,
        number: number_made(node, name).number(),
        trees: trees.fork(),
        count,
    })?;
    Ok(())
}

/// Puts what a generic declares behind the others.
fn add_generic<'a>(
    alloc: Global,
    found: &mut Vec<Item<'a>>,
    node: &Opened<'a, Resolved>,
) -> Result<(), AllocError>
    ensures { OnOk result ((d : Design) → items_of found.new.items
        ≡ items_of found.old.items ++ generic_by_form node.now.form.form d node.now.form node.now.parts) }
{
    let parts = &node.parts;
    match node.form.form {
        Form::GenericConstant => add_listed(alloc, found, Form::GenericConstant, parts, 2),
        Form::GenericType => add_named(alloc, found, &node.form, parts, parts, 0),
        Form::GenericFunction => {
            add_named(alloc, found, &node.form, &parts.skip(1), &parts.skip(3), 2)?;
            add_parameters(alloc, found, &parts.skip(2).parts())
        }
        _ => Ok(()),
    }
}

/// Puts generics behind the others.
fn add_generics<'a>(
    alloc: Global,
    found: &mut Vec<Item<'a>>,
    generics: &Cursor<'a, Resolved>,
) -> Result<(), AllocError>
    ensures { OnOk result ((d : Design) → items_of found.new.items ≡ items_of found.old.items ++ generics_in d generics.now) }
{
    let mut rest = generics.fork();
    while let Some(first) = rest.open() {
        add_generic(alloc, found, &first)?;
        rest = first.next;
    }
    Ok(())
}

/// What a function with these parts declares, in order.
pub fn declared_of<'a>(
    alloc: Global,
    parts: &Cursor<'a, Resolved>,
) -> Result<Vec<Item<'a>>, AllocError>
    ensures { IfOk result (λ found. (d : Design) → items_of found.items ≡ declared_by_parts d parts.now) }
{
    let mut found = Vec::new(alloc);
    add_generics(alloc, &mut found, &parts.skip(2).parts())?;
    add_parameters(alloc, &mut found, &parts.skip(4).parts())?;
    Ok(found)
}
