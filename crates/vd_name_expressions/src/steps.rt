//! Expressions that tell what is behind them a type, each a step over one tree.

ghost use Rattle.std.specs.Prelude.{◌≡◌, IfOk, OnOk};
ghost use Rattle.vd_forest.specs.Forest.{nothing, more};
ghost use Rattle.vd_forest.specs.Store.{Extends};
ghost use Rattle.vd_naming.specs.Expressions.{target as target_step, selector as selector_step};
ghost use Rattle.vd_naming.specs.Indexes.{array_index as array_index_step, index_mark as index_mark_step};
ghost use Rattle.vd_naming.specs.Statements.{surplus as surplus_step, parameter as parameter_step};
ghost use Rattle.vd_name_entering.specs.Made.{IsMade};

use crate::expression_reading::{read_mark_node, read_node, type_declared};
use crate::indexes::{is_other_type, names_or, not_selecting};
use crate::known::expression;
use crate::{mark_declared, mark_of};
use std::alloc::{AllocError, Global};
use vd_declarations::Class;
use vd_forest::{Opened, Store};
use vd_forms::Form;
use vd_name_entering::{Made, declaration_of, enter, one_tree, unresolved_node};
use vd_name_rows::{At, Names, Want};
use vd_naming::broken_if;
use vd_overloads::Wanted;
use vd_resolved::Resolved;
use vd_walks::lesser;

/// A target, whose type is at hand behind it.
pub fn target(
    alloc: Global,
    names: &Names,
    at: &mut At<'_>,
    node: &Opened<'_, Form>,
    out: &mut Store<Resolved>,
) -> Result<Made, AllocError>
    ensures is { IfOk result (λ made. IsMade out.new names.now made
        (target_step at.old names.now (more node.now.form node.now.text.now node.now.place node.now.parts nothing))) }
    ensures at { OnOk result (at.new ≡ (target_step at.old names.now (more node.now.form node.now.text.now node.now.place node.now.parts nothing)).at) }
    ensures extends { Extends out.old out.new }
{
    let made = read_node(alloc, names, at, &Wanted::Free, node, out)?;
    at.mark = mark_of(&out.cursor(made.tree));
    Ok(made)
}

/// A selector, whose type is that of the choices behind it.
pub fn selector(
    alloc: Global,
    names: &Names,
    at: &mut At<'_>,
    node: &Opened<'_, Form>,
    out: &mut Store<Resolved>,
) -> Result<Made, AllocError>
    ensures is { IfOk result (λ made. IsMade out.new names.now made
        (selector_step at.old names.now (more node.now.form node.now.text.now node.now.place node.now.parts nothing))) }
    ensures at { OnOk result (at.new ≡ (selector_step at.old names.now (more node.now.form node.now.text.now node.now.place node.now.parts nothing)).at) }
    ensures extends { Extends out.old out.new }
{
    let made = read_node(alloc, names, at, &Wanted::Free, node, out)?;
    let mark = mark_of(&out.cursor(made.tree));
    let refused = not_selecting(names, at, &mark, node.place);
    at.selector = mark;
    Ok(Made {
        tree: made.tree,
        first: lesser(made.first, refused),
    })
}

/// The discrete range that is the index of an array type, whose type is at hand behind it.
pub fn array_index(
    alloc: Global,
    names: &Names,
    at: &mut At<'_>,
    node: &Opened<'_, Form>,
    out: &mut Store<Resolved>,
) -> Result<Made, AllocError>
    ensures is { IfOk result (λ made. IsMade out.new names.now made
        (array_index_step at.old names.now (more node.now.form node.now.text.now node.now.place node.now.parts nothing))) }
    ensures at { OnOk result (at.new ≡ (array_index_step at.old names.now (more node.now.form node.now.text.now node.now.place node.now.parts nothing)).at) }
    ensures extends { Extends out.old out.new }
{
    let mut single = Store::new(alloc);
    let number = one_tree(node, &mut single)?;
    let made = expression(
        alloc,
        names,
        at,
        Want::AnyRange,
        &single.cursor(number),
        out,
    )?;
    at.mark = mark_of(&out.cursor(made.tree));
    Ok(made)
}

/// The mark of the index of an array type of any bounds, whose type is at hand behind it.
pub fn index_mark(
    alloc: Global,
    names: &Names,
    at: &mut At<'_>,
    node: &Opened<'_, Form>,
    out: &mut Store<Resolved>,
) -> Result<Made, AllocError>
    ensures is { IfOk result (λ made. IsMade out.new names.now made
        (index_mark_step at.old names.now (more node.now.form node.now.text.now node.now.place node.now.parts nothing))) }
    ensures at { OnOk result (at.new ≡ (index_mark_step at.old names.now (more node.now.form node.now.text.now node.now.place node.now.parts nothing)).at) }
    ensures extends { Extends out.old out.new }
{
    let made = read_mark_node(alloc, names, at, node, out)?;
    let declared = mark_declared(&out.cursor(made.tree));
    let mark = type_declared(names, at, declared)?;
    let refused = broken_if(is_other_type(names, at, &mark), 307, node.place);
    at.mark = mark;
    Ok(Made {
        tree: made.tree,
        first: lesser(made.first, refused),
    })
}

/// A second range of an index constraint: one is enough.
pub fn surplus(
    alloc: Global,
    names: &Names,
    at: &At<'_>,
    node: &Opened<'_, Form>,
    out: &mut Store<Resolved>,
) -> Result<Made, AllocError>
    ensures is { IfOk result (λ made. IsMade out.new names.now made
        (surplus_step at.now names.now node.now.place (more node.now.form node.now.text.now node.now.place node.now.parts nothing))) }
    ensures at { OnOk result ((surplus_step at.now names.now node.now.place (more node.now.form node.now.text.now node.now.place node.now.parts nothing)).at ≡ at.now) }
    ensures extends { Extends out.old out.new }
{
    let mut single = Store::new(alloc);
    let number = one_tree(node, &mut single)?;
    let first = names_or(alloc, names, at, 305, node.place, &single.cursor(number))?;
    let tree = unresolved_node(alloc, node, out)?;
    Ok(Made { tree, first })
}

/// The range of a loop or generate, whose parameter of this class is declared behind it.
pub fn parameter(
    alloc: Global,
    names: &mut Names,
    at: &mut At<'_>,
    class: Class,
    node: &Opened<'_, Form>,
    out: &mut Store<Resolved>,
) -> Result<Made, AllocError>
    ensures is { IfOk result (λ made. IsMade out.new names.new made
        (parameter_step class at.old names.old (more node.now.form node.now.text.now node.now.place node.now.parts nothing))) }
    ensures at { OnOk result (at.new
        ≡ (parameter_step class at.old names.old (more node.now.form node.now.text.now node.now.place node.now.parts nothing)).at) }
    ensures extends { Extends out.old out.new }
{
    let range = array_index(alloc, names, at, node, out)?;
    let name = at.word.name(alloc)?;
    let declared = declaration_of(alloc, class, name.as_slice(), at.word_place, at.mark)?;
    let refused = enter(names, at.region, declared)?;
    Ok(Made {
        tree: range.tree,
        first: lesser(range.first, refused),
    })
}
