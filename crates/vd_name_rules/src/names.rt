//! Names where they are read, assigned or associated.

ghost use Rattle.std.specs.Prelude.{◌≡◌, IfOk};
ghost use Rattle.vd_walks.specs.Least.{least_of};
ghost use Rattle.vd_name_rules.specs.Judges.{name_judge, used as is_used, used_as_object as is_used_as_object, used_as_view as is_used_as_view, used_at as is_used_at};
ghost use Rattle.vd_port_modes.specs.Readings.{read_reached};
ghost use Rattle.vd_port_modes.specs.Source.{design_in};
ghost use Rattle.vd_value_rules.specs.Groups.{firsts_by, names_used};

use crate::coming::{Coming, Sort, all_of, behind, coming_by};
use crate::rows::row_of;
use std::alloc::{AllocError, Global};
use vd_bytes::{Place, Refused};
use vd_forest::Opened;
use vd_forms::Form;
use vd_port_modes::Interfaces;
use vd_port_modes::places::{may_be_assigned, names_view_port, reads_out};
use vd_port_modes::reaching::{Reached, reached_by};
use vd_resolved::{Resolved, Tree};
use vd_trees::Revision;
use vd_value_rules::{Firsts, refused_if};
use vd_walks::{Judging, find_least};

/// A port with a view that is named by itself.
fn used_as_view(
    sort: Sort,
    interfaces: &Interfaces<'_>,
    place: Place,
    name: &Reached<'_>,
) -> Option<Refused>
    ensures { result ≡ least_of (is_used_as_view sort (design_in interfaces.now) place (read_reached name.now)) }
{
    match sort {
        Sort::Associated | Sort::Formal => None,
        _ => refused_if(names_view_port(interfaces, name), place, 308),
    }
}

/// A target that may not be written, or an `out` port that is read.
fn used_as_object(
    sort: Sort,
    interfaces: &Interfaces<'_>,
    place: Place,
    name: &Reached<'_>,
) -> Option<Refused>
    ensures { result ≡ least_of (is_used_as_object sort (design_in interfaces.now) place (read_reached name.now)) }
{
    match sort {
        Sort::SignalTarget => refused_if(!may_be_assigned(interfaces, true, name), place, 402),
        Sort::VariableTarget => refused_if(!may_be_assigned(interfaces, false, name), place, 402),
        Sort::Associated | Sort::Formal => None,
        _ => refused_if(reads_out(interfaces, name), place, 401),
    }
}

fn used(
    of_names: bool,
    sort: Sort,
    interfaces: &Interfaces<'_>,
    place: Place,
    name: &Reached<'_>,
) -> Option<Refused>
    ensures { result ≡ least_of (is_used of_names sort (design_in interfaces.now) place (read_reached name.now)) }
{
    if of_names {
        used_as_view(sort, interfaces, place, name)
    } else {
        used_as_object(sort, interfaces, place, name)
    }
}

fn used_at<'a>(
    alloc: Global,
    of_names: bool,
    interfaces: &Interfaces<'a>,
    coming: &Coming,
    node: &Opened<'a, Resolved>,
) -> Result<Option<Refused>, AllocError>
    ensures { IfOk result (λ found. found
        ≡ least_of (is_used_at node.now.form.form of_names (design_in interfaces.now) coming.now node.now.place node.now.parts)) }
{
    match node.form.form {
        Form::Name => {
            let name = reached_by(alloc, interfaces, &node.parts)?;
            Ok(used(of_names, coming.first, interfaces, node.place, &name))
        }
        _ => Ok(None),
    }
}

/// The rules of one phase.
#[derive(Clone, Copy)]
struct NameRules<'i, 't> {
    interfaces: &'i Interfaces<'t>,
    of_names: bool,
}

impl<'i, 't> Judging<Resolved, Coming> for NameRules<'i, 't> {
    ghost judge = { λ rules. name_judge rules.of_names (design_in rules.interfaces.now) };

    fn broken(
        &self,
        alloc: Global,
        coming: &Coming,
        node: &Opened<'_, Resolved>,
    ) -> Result<Option<Refused>, AllocError> {
        used_at(alloc, self.of_names, self.interfaces, coming, node)
    }

    fn down(
        &self,
        _alloc: Global,
        coming: &Coming,
        node: &Opened<'_, Resolved>,
    ) -> Result<Coming, AllocError> {
        let row = row_of(node.form.form);
        Ok(coming_by(row, self.interfaces, coming.first, &node.form, &node.parts))
    }

    fn along(
        &self,
        _alloc: Global,
        coming: &Coming,
        _node: &Opened<'_, Resolved>,
    ) -> Result<Coming, AllocError> {
        Ok(behind(coming))
    }
}

/// The least refusals of names: 308, and of 401 and 402.
pub fn name_refusals(alloc: Global, revision: Revision, tree: &Tree) -> Result<Firsts, AllocError>
    ensures { IfOk result (λ found. found ≡ firsts_by names_used revision tree.now) }
{
    let interfaces = Interfaces::of(alloc, revision, tree)?;
    let units = tree.cursor();
    let start = all_of(Sort::Read);
    let of_names = NameRules {
        interfaces: &interfaces,
        of_names: true,
    };
    let of_rules = NameRules {
        interfaces: &interfaces,
        of_names: false,
    };
    let names = find_least(alloc, &units, start, &of_names)?;
    let rules = find_least(alloc, &units, start, &of_rules)?;
    Ok(Firsts {
        of_names: names,
        of_rules: rules,
    })
}
