//! What is refused of the names of an expression beside what is visible under them: a package with generics that is named outside itself and
//! its body, and an attribute of an array mark without bounds. (IEEE 1076-2019, generic packages; IEEE 1076, predefined attributes)

ghost use Rattle.std.specs.Prelude.{◌≡◌, IfOk};
ghost use Rattle.std.specs.Option.{unwrap_or};
ghost use Rattle.vd_visible.specs.Sights.{sight_from};
ghost use Rattle.vd_name_rows.specs.Refusals.{broken_if as refused_where};
ghost use Rattle.vd_naming.specs.Selected.{means_outside as meant_outside};
ghost use Rattle.vd_naming.specs.Pieces.{meant_by_piece as meant_behind_piece, is_array as array_at, is_unbounded as unbounded_at, means_unbounded as meant_unbounded, attribute_at as attribute_refused, refused_behind as behind_refused, refused_name as name_refused, refused_at as node_refused, pieces_finder, refused_pieces as pieces_refused};

use crate::meant::{Meant, meant_by_selection, visible_meant};
use crate::outside::means_outside;
use crate::refusing::broken_if;
use std::alloc::{AllocError, Global};
use vd_bytes::{Place, Refused};
use vd_declarations::{DeclId, RegionId, TypeId};
use vd_forest::{Cursor, Opened};
use vd_forms::Form;
use vd_name_rows::Names;
use vd_visible::Surroundings;
use vd_visible::types::element_of;
use vd_walks::{Finding, find_first, lesser};

/// What a piece behind the first one makes of a name. Only behind points something is known here.
fn meant_by_piece(
    alloc: Global,
    place: &Surroundings<'_>,
    meant: &Meant,
    form: Form,
    parts: &Cursor<'_, Form>,
) -> Result<Meant, AllocError>
    ensures { IfOk result (λ m. m ≡ meant_behind_piece form (sight_from place.now) meant.now parts.now) }
{
    match form {
        Form::Selection => meant_by_selection(alloc, place, meant, parts),
        _ => Ok(Meant::breaks(alloc, 0)),
    }
}

/// Whether there is a type, and it is an array type.
fn is_array(place: &Surroundings<'_>, mark: Option<TypeId>) -> bool
    ensures { result ≡ array_at (sight_from place.now) mark }
{
    match mark {
        None => false,
        Some(mark) => element_of(place.class_of_type(mark)).is_some(),
    }
}

/// Whether it is the mark of an array without bounds.
fn is_unbounded(names: &Names, place: &Surroundings<'_>, id: DeclId) -> bool
    ensures { result ≡ unbounded_at (sight_from place.now) names.now id }
{
    is_array(place, place.type_meant(id)) && !names.note(id).is_bounded
}

/// Whether a name means the mark of an array without bounds.
fn means_unbounded(names: &Names, place: &Surroundings<'_>, meant: &Meant) -> bool
    ensures { result ≡ meant_unbounded (sight_from place.now) names.now meant.now }
{
    match meant.declarations() {
        [id] => is_unbounded(names, place, *id),
        _ => false,
    }
}

/// What is refused of an attribute behind a name, at the place behind the apostrophe.
fn attribute_at(
    names: &Names,
    place: &Surroundings<'_>,
    meant: &Meant,
    node: &Opened<'_, Form>,
) -> Option<Refused>
    ensures { result ≡ attribute_refused node.now.form (sight_from place.now) names.now meant.now node.now.place node.now.parts }
{
    match node.form {
        Form::Attribute => {
            let at = node.parts.place().unwrap_or(node.place);
            broken_if(means_unbounded(names, place, meant), 307, at)
        }
        Form::RangeAttribute => broken_if(means_unbounded(names, place, meant), 307, node.place),
        _ => None,
    }
}

/// What is refused of a name that means a package with generics, outside which the region stands, given the place of its first token.
fn outside_at(
    alloc: Global,
    names: &Names,
    region: RegionId,
    first: Place,
    meant: &Meant,
) -> Result<Option<Refused>, AllocError>
    ensures { IfOk result (λ refused. refused ≡ refused_where (meant_outside names.now.scopes region meant.now) 307 first) }
{
    let outside = means_outside(alloc, names, region, meant)?;
    Ok(broken_if(outside, 307, first))
}

/// What is refused of the pieces behind what a name begins with, given the place of its first token.
#[tactic(auto, using(vd_walks::proofs::OrderLaws::lesser_brackets))]
fn refused_behind(
    alloc: Global,
    names: &Names,
    place: &Surroundings<'_>,
    region: RegionId,
    first: Place,
    head: Meant,
    pieces: &Cursor<'_, Form>,
) -> Result<Option<Refused>, AllocError>
    ensures { IfOk result (λ refused. refused ≡ behind_refused (sight_from place.now) names.now region first head pieces.now) }
{
    let mut meant = head;
    let mut refused = None;
    let mut rest = pieces.fork();
    while let Some(node) = rest.open() {
        let outside = outside_at(alloc, names, region, first, &meant)?;
        let here = attribute_at(names, place, &meant, &node);
        refused = lesser(lesser(refused, outside), here);
        meant = meant_by_piece(alloc, place, &meant, node.form, &node.parts)?;
        rest = node.next;
    }
    let outside = outside_at(alloc, names, region, first, &meant)?;
    Ok(lesser(refused, outside))
}

/// What is refused of a name, given the place of its first token.
fn refused_name(
    alloc: Global,
    names: &Names,
    place: &Surroundings<'_>,
    region: RegionId,
    first: Place,
    pieces: &Cursor<'_, Form>,
) -> Result<Option<Refused>, AllocError>
    ensures { IfOk result (λ refused. refused ≡ name_refused (sight_from place.now) names.now region first pieces.now) }
{
    let Some(head) = pieces.open() else {
        return Ok(None);
    };
    let meant = visible_meant(alloc, place, head.text)?;
    refused_behind(alloc, names, place, region, first, meant, &head.next)
}

/// The names of an expression in a region.
#[derive(Clone, Copy)]
struct InRegion<'a, 'b> {
    names: &'a Names,
    place: &'a Surroundings<'b>,
    region: RegionId,
}

impl<'a, 'b> Finding<Form, (), Refused> for InRegion<'a, 'b> {
    ghost finder = { λ search. pieces_finder (sight_from search.place.now) search.names.now search.region };

    fn answer(
        &self,
        alloc: Global,
        _state: &(),
        node: &Opened<'_, Form>,
    ) -> Result<Option<Refused>, AllocError> {
        match node.form {
            Form::Name => {
                let at = node.place;
                refused_name(alloc, self.names, self.place, self.region, at, &node.parts)
            }
            _ => Ok(None),
        }
    }

    fn down(
        &self,
        _alloc: Global,
        _state: &(),
        _node: &Opened<'_, Form>,
    ) -> Result<(), AllocError> {
        Ok(())
    }

    fn along(
        &self,
        _alloc: Global,
        _state: &(),
        _node: &Opened<'_, Form>,
    ) -> Result<(), AllocError> {
        Ok(())
    }
}

/// What is refused of the first name of an expression of which something is.
pub fn refused_pieces(
    alloc: Global,
    names: &Names,
    place: &Surroundings<'_>,
    region: RegionId,
    tree: &Cursor<'_, Form>,
) -> Result<Option<Refused>, AllocError>
    ensures { IfOk result (λ refused. refused ≡ pieces_refused (sight_from place.now) names.now region tree.now) }
{
    let search = InRegion {
        names,
        place,
        region,
    };
    let refused = find_first(alloc, tree, (), &search)?;
    Ok(refused)
}
