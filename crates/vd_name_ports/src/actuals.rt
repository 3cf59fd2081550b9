//! What ports are given: values, or `open`.

ghost use Rattle.std.specs.Prelude.{◌≡◌, IfOk};
ghost use Rattle.std.specs.Option.{option_copied};
ghost use Rattle.vd_forest.specs.Forest.{nothing, with_next};
ghost use Rattle.vd_forest.specs.Store.{Holds, Extends};
ghost use Rattle.vd_name_rows.specs.Noting.{formal_at as formal_noted};
ghost use Rattle.vd_naming.specs.Expressions.{unresolved as with_nothing_named};
ghost use Rattle.vd_naming.specs.Ports.{form_of_tree, value_as as value_of_type, actual as actual_of};
ghost use Rattle.vd_name_expressions.specs.Reads.{IsRead};

use crate::instance::Instance;
use std::alloc::{AllocError, Global};
use vd_bytes::Place;
use vd_declarations::{DeclId, TypeId};
use vd_forest::{Cursor, Store};
use vd_forms::Form;
use vd_name_entering::unresolved_node;
use vd_name_expressions::Read;
use vd_name_expressions::expression_reading::read_first;
use vd_name_rows::{Formal, Names};
use vd_naming::broken_if;
use vd_overloads::Wanted;
use vd_resolved::Resolved;

/// What is noted of a port.
pub(crate) fn formal_at(names: &Names, port: DeclId) -> Formal
    ensures { result ≡ formal_noted names.now port }
{
    match names.note(port).formal {
        Some(formal) => formal,
        None => Formal {
            mode: Form::In,
            is_needed: false,
        },
    }
}

/// The form of the first tree. That of one that isn't there is that of one that is left out.
fn first_form(trees: &Cursor<'_, Form>) -> Form
    ensures { result ≡ form_of_tree (with_next trees.now nothing) }
{
    match trees.form() {
        Some(form) => form,
        None => Form::Absent,
    }
}

/// The first tree, with nothing named in it.
fn unresolved_first(
    alloc: Global,
    trees: &Cursor<'_, Form>,
    out: &mut Store<Resolved>,
) -> Result<u32, AllocError>
    ensures holds { IfOk result (λ number. Holds out.new number (with_nothing_named (with_next trees.now nothing))) }
    ensures extends { Extends out.old out.new }
{
    match trees.open() {
        None => Ok(0),
        Some(first) => unresolved_node(alloc, &first, out),
    }
}

/// The first tree as a port of this type is given it.
pub(crate) fn value_as(
    alloc: Global,
    instance: &Instance<'_, '_>,
    mark: &Option<TypeId>,
    value: &Cursor<'_, Form>,
    out: &mut Store<Resolved>,
) -> Result<Read, AllocError>
    ensures is { IfOk result (λ read. IsRead out.new read
        (value_of_type mark.now instance.now.at.now instance.now.names.now (with_next value.now nothing))) }
    ensures extends { Extends out.old out.new }
{
    match mark {
        Some(mark) => {
            let wanted = Wanted::OfType(*mark);
            read_first(alloc, instance.names, instance.at, &wanted, value, out)
        }
        None => {
            let tree = unresolved_first(alloc, value, out)?;
            Ok(Read { tree, first: None })
        }
    }
}

/// The first tree as what a port of this type is given, in an element at this place. A port that needs a value isn't given `open`.
pub(crate) fn actual(
    alloc: Global,
    instance: &Instance<'_, '_>,
    port: DeclId,
    mark: &Option<TypeId>,
    place: Place,
    value: &Cursor<'_, Form>,
    out: &mut Store<Resolved>,
) -> Result<Read, AllocError>
    ensures is { IfOk result (λ read. IsRead out.new read
        (actual_of port mark.now instance.now.at.now instance.now.names.now place (form_of_tree (with_next value.now nothing)) (with_next value.now nothing))) }
    ensures extends { Extends out.old out.new }
{
    match first_form(value) {
        Form::Open => {
            let needed = formal_at(instance.names, port).is_needed;
            let tree = unresolved_first(alloc, value, out)?;
            Ok(Read {
                tree,
                first: broken_if(needed, 310, place),
            })
        }
        _ => value_as(alloc, instance, mark, value, out),
    }
}
