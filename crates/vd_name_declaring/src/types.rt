//! Types. (IEEE 1076, type declarations; enumeration types; array types; record types)

ghost use Rattle.std.specs.Prelude.{◌≡◌, ◌≤◌, Some, None, IfOk, OnOk, length};
ghost use Rattle.vd_forest.specs.Forest.{next_of, parts_of};
ghost use Rattle.vd_forest.specs.Store.{at, Extends};
ghost use Rattle.vd_name_entering.specs.Entered.{IsEntered};
ghost use Rattle.vd_name_rows.specs.Entering.{words_of, declaration_of};
ghost use Rattle.vd_name_rows.specs.Noting.{with_bounds};
ghost use Rattle.vd_name_rows.specs.Members.{declared_in};
ghost use Rattle.vd_naming.specs.Expressions.{mark_of as mark_of_first};
ghost use Rattle.vd_naming.specs.Endings.{closed, or_zero, has_range as has_index_range, entering_type, entering_enumeration, entering_array, entering_definition, type_ends as type_declared};
ghost use Rattle.vd_name_entering.specs.Ended.{seen_ended};
ghost use Rattle.vd_name_entering.specs.Made.{IsMade};

use crate::literals::with_literals;
use crate::words::declared_word;
use std::alloc::{AllocError, Global};
use vd_bytes::Refused;
use vd_declarations::{Class, DeclId, Declaration, Declarations, RegionId, TypeId};
use vd_forest::{Cursor, Store};
use vd_forms::Form;
use vd_name_entering::{Ended, Made, close, enter, enter_words, finished, form_of_next};
use vd_name_rows::{Names, Note, Sort};
use vd_resolved::Resolved;
use vd_walks::lesser;

/// Enters a type, with the operators that it brings.
pub fn enter_type(
    names: &mut Names,
    region: RegionId,
    declared: Declaration,
) -> Result<Option<Refused>, AllocError>
    ensures { IfOk result (λ first. IsEntered names.new first (entering_type region declared names.old)) }
{
    let own = TypeId::of(names.next_number()?);
    let class = declared.class;
    let first = enter(names, region, declared)?;
    names.bring_operators(region, own, class)?;
    Ok(first)
}

/// Enters an enumeration type and its literals.
fn enter_enumeration(
    alloc: Global,
    names: &mut Names,
    ended: &Ended<'_, '_>,
) -> Result<Option<Refused>, AllocError>
    ensures { IfOk result (λ first. IsEntered names.new first
        (entering_enumeration ended.now.outer.now.region (record { name = ended.now.inner.now.at.word; place = ended.now.inner.now.at.word_place })
        (words_of (parts_of (next_of ended.now.node.now.parts))) names.old)) }
{
    let outer = ended.outer;
    let region = outer.region;
    let own = TypeId::of(names.next_number()?);
    let declared = declared_word(alloc, &Class::EnumerationType, ended, None)?;
    let first = enter(names, region, declared)?;
    let literals = ended.node.parts.next().parts();
    let class = Class::EnumerationLiteral;
    let refused = enter_words(alloc, names, region, &class, &Some(own), &literals)?;
    names.bring_operators(region, own, Class::EnumerationType)?;
    Ok(lesser(first, refused))
}

/// The type, or the first one that is given.
fn type_or_zero(mark: Option<TypeId>) -> TypeId
    ensures { result ≡ or_zero mark }
{
    match mark {
        Some(mark) => mark,
        None => TypeId::of(0),
    }
}

/// The declaration, or the first one that is given.
pub(crate) fn declaration_or_zero(named: Option<DeclId>) -> DeclId
    ensures { result ≡ or_zero named }
{
    match named {
        Some(named) => named,
        None => DeclId::of(0),
    }
}

/// The type of the first tree.
fn mark_of(trees: &Cursor<'_, Resolved>) -> Option<TypeId>
    ensures { result ≡ mark_of_first trees.now }
{
    match trees.form() {
        Some(node) => node.mark,
        None => None,
    }
}

/// Whether the index of an array type has bounds.
fn has_range(index: &Cursor<'_, Form>) -> bool
    ensures { result ≡ has_index_range index.now }
{
    match index.form() {
        None | Some(Form::UnconstrainedIndex) => false,
        Some(_) => true,
    }
}

/// Notes that an array type or subtype has bounds, where it has.
pub(crate) fn note_bounds(names: &mut Names, bounded: bool, id: DeclId) -> Result<(), AllocError>
    ensures { OnOk result (names.new ≡ with_bounds bounded id names.old) }
{
    if !bounded {
        return Ok(());
    }
    let note = Note {
        is_bounded: true,
        ..names.note(id)
    };
    names.put(id, note)
}

/// An array type of this definition.
fn array_class(ended: &Ended<'_, '_>, definition: &Cursor<'_, Resolved>) -> Class
    ensures { result ≡ Class.ArrayType (or_zero (mark_of_first (parts_of definition.now))) (or_zero ended.now.inner.now.at.mark) (or_zero ended.now.inner.now.at.named) }
{
    let inner = ended.inner;
    Class::ArrayType {
        index: type_or_zero(mark_of(&definition.parts())),
        element: type_or_zero(inner.at.mark),
        element_mark: declaration_or_zero(inner.at.named),
    }
}

/// Enters an array type.
fn enter_array(
    alloc: Global,
    names: &mut Names,
    ended: &Ended<'_, '_>,
    out: &Store<Resolved>,
) -> Result<Option<Refused>, AllocError>
    requires { ended.now.inner.now.tree ≤ length out.now }
    ensures { IfOk result (λ first. IsEntered names.new first (entering_array (seen_ended out.now names.old ended.now)
        (next_of ended.now.node.now.parts) (next_of (at out.now ended.now.inner.now.tree)) names.old)) }
{
    let bounded = has_range(&ended.node.parts.next().parts());
    note_bounds(names, bounded, DeclId::of(names.next_number()?))?;
    let class = array_class(ended, &out.cursor(ended.inner.tree).next());
    let declared = declared_word(alloc, &class, ended, None)?;
    let outer = ended.outer;
    let first = enter_type(names, outer.region, declared)?;
    Ok(first)
}

/// A record type, whose elements stand in its region.
fn record_of(alloc: Global, names: &Names, ended: &Ended<'_, '_>) -> Result<Declaration, AllocError>
    ensures { IfOk result (λ made. made ≡ record (declaration_of Class.RecordType (record { name = ended.now.inner.now.at.word; place = ended.now.inner.now.at.word_place }) None)
        { parameters = declared_in ended.now.inside.now.region Sort.Element names.now; inside = Some ended.now.inside.now.region }) }
{
    let inside = ended.inside;
    let region = inside.region;
    let elements = names.declared_in(alloc, region, Sort::Element)?;
    let mut declared = declared_word(alloc, &Class::RecordType, ended, None)?;
    declared.parameters = Declarations::of(elements);
    declared.inside = Some(region);
    Ok(declared)
}

/// Enters a record type.
fn enter_record(
    alloc: Global,
    names: &mut Names,
    ended: &Ended<'_, '_>,
) -> Result<Option<Refused>, AllocError>
    ensures { IfOk result (λ first. IsEntered names.new first
        (entering_type ended.now.outer.now.region
        (record (declaration_of Class.RecordType (record { name = ended.now.inner.now.at.word; place = ended.now.inner.now.at.word_place }) None)
        { parameters = declared_in ended.now.inside.now.region Sort.Element names.old; inside = Some ended.now.inside.now.region })
        (closed ended.now.inside.now.region names.old))) }
{
    let (outer, inside) = (ended.outer, ended.inside);
    let declared = record_of(alloc, names, ended)?;
    close(names, inside.region)?;
    let first = enter_type(names, outer.region, declared)?;
    Ok(first)
}

/// Enters what a definition of a form defines.
fn enter_definition(
    alloc: Global,
    names: &mut Names,
    form: Form,
    ended: &Ended<'_, '_>,
    out: &Store<Resolved>,
) -> Result<Option<Refused>, AllocError>
    requires { ended.now.inner.now.tree ≤ length out.now }
    ensures { IfOk result (λ first. IsEntered names.new first (entering_definition (seen_ended out.now names.old ended.now) form
        (next_of ended.now.node.now.parts) (next_of (at out.now ended.now.inner.now.tree)) names.old)) }
{
    match form {
        Form::EnumerationType => {
            let first = enter_enumeration(alloc, names, ended)?;
            Ok(first)
        }
        Form::ArrayType => {
            let first = enter_array(alloc, names, ended, out)?;
            Ok(first)
        }
        Form::RecordType => {
            let first = enter_record(alloc, names, ended)?;
            Ok(first)
        }
        _ => Ok(None),
    }
}

/// Declares a type.
#[tactic(auto, using(vd_forest::proofs::StoreLemmas::extends_trans))]
pub fn type_ends(
    alloc: Global,
    names: &mut Names,
    ended: &Ended<'_, '_>,
    out: &mut Store<Resolved>,
) -> Result<Made, AllocError>
    requires { ended.now.inner.now.tree ≤ length out.old }
    ensures is { IfOk result (λ made. IsMade out.new names.new made (type_declared (seen_ended out.old names.old ended.now))) }
    ensures extends { Extends out.old out.new }
{
    let form = form_of_next(&ended.node.parts);
    let number = names.next_number()?;
    let first = enter_definition(alloc, names, form, ended, out)?;
    let parts = with_literals(alloc, form, number, ended.inner.tree, out)?;
    let own = Some(DeclId::of(number));
    let made = finished(ended, own, None, parts, first, out)?;
    Ok(made)
}
