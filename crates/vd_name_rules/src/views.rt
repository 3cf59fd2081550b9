//! Ports with a view of another record than their subtype.

ghost use Rattle.std.specs.Prelude.{◌≡◌, IfOk};
ghost use Rattle.vd_walks.specs.Least.{least_of};
ghost use Rattle.vd_name_rules.specs.Judges.{view_judge};
ghost use Rattle.vd_port_modes.specs.Source.{design_in};
ghost use Rattle.vd_value_rules.specs.Groups.{firsts_by, view_ports};
ghost use Rattle.vd_value_rules.specs.Choices.{place_at as place_of_part};
ghost use Rattle.vd_value_rules.specs.Knowledge.{meaning_at};
ghost use Rattle.vd_value_rules.specs.Names.{are_other_types as other_types, broken_view_port as is_broken_view_port, subtype_mark as mark_of_subtype, type_of_mark as type_is_of_mark, view_type as type_of_view};

use std::alloc::{AllocError, Global};
use vd_bytes::{Place, Refused};
use vd_declarations::DeclId;
use vd_forest::{Cursor, Opened};
use vd_forms::Form;
use vd_operations::tables::mark_of;
use vd_operations::{declaration_of, is_present};
use vd_port_modes::Interfaces;
use vd_resolved::{Resolved, Tree};
use vd_trees::Revision;
use vd_value_rules::{Firsts, refused_if};
use vd_walks::{Judging, find_least};

/// The place of a part; the first place where there is none.
fn place_at(number: u32, parts: &Cursor<'_, Resolved>) -> Place
    ensures { result ≡ place_of_part number parts.now }
{
    match parts.skip(number).place() {
        Some(place) => place,
        None => Place {
            file: 0,
            line: 0,
            column: 0,
        },
    }
}

/// The type of a mark, which is a type or a subtype.
fn type_of_mark(interfaces: &Interfaces<'_>, mark: Option<DeclId>) -> Option<DeclId>
    ensures { result ≡ type_is_of_mark (design_in interfaces.now) mark }
{
    match mark {
        None => None,
        Some(number) => match mark_of(interfaces.declarations(), number.number()) {
            Some(of) => Some(DeclId::of(of.number())),
            None => Some(number),
        },
    }
}

/// The type of the subtype of a port.
fn subtype_mark(interfaces: &Interfaces<'_>, parts: &Cursor<'_, Resolved>) -> Option<DeclId>
    ensures { result ≡ mark_of_subtype (design_in interfaces.now) parts.now }
{
    let subtype = parts.skip(4);
    type_of_mark(interfaces, declaration_of(&subtype.parts()))
}

/// The type of the view of a port.
fn view_type(interfaces: &Interfaces<'_>, parts: &Cursor<'_, Resolved>) -> Option<DeclId>
    ensures { result ≡ type_of_view (design_in interfaces.now) parts.now }
{
    let view = declaration_of(&parts.skip(2));
    type_of_mark(interfaces, interfaces.mark_of_view(view))
}

fn are_other_types(one: Option<DeclId>, other: Option<DeclId>) -> bool
    ensures { result ≡ other_types one other }
{
    match (one, other) {
        (Some(t), Some(u)) => t.number() != u.number(),
        _ => false,
    }
}

/// Whether a part is there.
fn has_part(interfaces: &Interfaces<'_>, number: u32, parts: &Cursor<'_, Resolved>) -> bool
    ensures { result ≡ (meaning_at (design_in interfaces.now) number parts.now).is_present }
{
    is_present(&parts.skip(number))
}

fn broken_view_port(
    interfaces: &Interfaces<'_>,
    form: Form,
    parts: &Cursor<'_, Resolved>,
) -> Option<Refused>
    ensures { result ≡ least_of (is_broken_view_port form (design_in interfaces.now) parts.now) }
{
    match form {
        Form::ViewPort => {
            let differs = has_part(interfaces, 4, parts)
                && are_other_types(
                    subtype_mark(interfaces, parts),
                    view_type(interfaces, parts),
                );
            refused_if(differs, place_at(2, parts), 308)
        }
        _ => None,
    }
}

#[derive(Clone, Copy)]
struct ViewRules<'i, 't> {
    interfaces: &'i Interfaces<'t>,
}

impl<'i, 't> Judging<Resolved, ()> for ViewRules<'i, 't> {
    ghost judge = { λ rules. view_judge (design_in rules.interfaces.now) };

    fn broken(
        &self,
        _alloc: Global,
        _state: &(),
        node: &Opened<'_, Resolved>,
    ) -> Result<Option<Refused>, AllocError> {
        Ok(broken_view_port(self.interfaces, node.form.form, &node.parts))
    }

    fn down(
        &self,
        _alloc: Global,
        _state: &(),
        _node: &Opened<'_, Resolved>,
    ) -> Result<(), AllocError> {
        Ok(())
    }

    fn along(
        &self,
        _alloc: Global,
        _state: &(),
        _node: &Opened<'_, Resolved>,
    ) -> Result<(), AllocError> {
        Ok(())
    }
}

/// The least refusal of ports with views: 308.
pub fn view_port_refusals(
    alloc: Global,
    revision: Revision,
    tree: &Tree,
) -> Result<Firsts, AllocError>
    ensures { IfOk result (λ found. found ≡ firsts_by view_ports revision tree.now) }
{
    let interfaces = Interfaces::of(alloc, revision, tree)?;
    let units = tree.cursor();
    let rules = ViewRules {
        interfaces: &interfaces,
    };
    let names = find_least(alloc, &units, (), &rules)?;
    Ok(Firsts {
        of_names: names,
        of_rules: None,
    })
}
