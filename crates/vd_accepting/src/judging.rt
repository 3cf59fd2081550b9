//! The first rule that a design breaks.

ghost use Rattle.std.specs.Prelude.{◌≡◌, IfOk};
ghost use Rattle.vd_accepting.specs.Accepting.{first_of_rules as first_among_rules};
ghost use Rattle.vd_walks.specs.Finding.{or_else};
ghost use Rattle.vd_accepting.specs.Phases.{first_broken, resolved_design};

use crate::all_groups::first_of_groups;
use std::alloc::{AllocError, Global};
use vd_bytes::Refused;
use vd_call_rules::{first_call_refusal, first_chain_refusal};
use vd_forest::Cursor;
use vd_forms::Form;
use vd_name_resolution::resolve_names;
use vd_resolved::Tree;
use vd_structure_rules::first_structure_refusal;
use vd_text_rules::first_text_refusal;
use vd_trees::Revision;
use vd_walks::lesser;

/// A resolved design, and the first rule that it breaks.
#[derive(Drop)]
pub struct Judgement {
    pub tree: Tree,
    pub first: Option<Refused>,
}

/// The first refusal of the rules on types, values and structure, where those that need types and values refuse this first.
fn first_of_rules(
    alloc: Global,
    revision: Revision,
    tree: &Tree,
    of_groups: Option<Refused>,
) -> Result<Option<Refused>, AllocError>
    ensures { IfOk result (λ found. found ≡ first_among_rules revision tree.now of_groups) }
{
    let units = tree.cursor();
    let of_structure = first_structure_refusal(alloc, revision, &units)?;
    let of_calls = first_call_refusal(alloc, &units)?;
    let of_chains = first_chain_refusal(alloc, revision, tree)?;
    Ok(lesser(of_structure, lesser(of_calls, lesser(of_chains, of_groups))))
}

/// What is refused of names, or else of rules.
fn names_or_rules(
    alloc: Global,
    revision: Revision,
    tree: &Tree,
    of_names: Option<Refused>,
    of_groups: Option<Refused>,
) -> Result<Option<Refused>, AllocError>
    ensures { IfOk result (λ found. found ≡ or_else of_names (first_among_rules revision tree.now of_groups)) }
{
    match of_names {
        Some(refused) => Ok(Some(refused)),
        None => first_of_rules(alloc, revision, tree, of_groups),
    }
}

/// A design of these units, resolved, with the first rule that it breaks. The rules on types, values and structure are asked where no rule on names is
/// broken.
pub fn judge(
    alloc: Global,
    revision: Revision,
    units: &Cursor<'_, Form>,
) -> Result<Judgement, AllocError>
    ensures tree { IfOk result (λ design. design.tree ≡ resolved_design revision units.now) }
    ensures first { IfOk result (λ design. design.first ≡ first_broken revision units.now) }
{
    let of_text = first_text_refusal(alloc, revision, units)?;
    let design = resolve_names(alloc, revision, units)?;
    let groups = first_of_groups(alloc, revision, &design.tree)?;
    let of_names = lesser(of_text, lesser(design.first, groups.of_names));
    let first = names_or_rules(alloc, revision, &design.tree, of_names, groups.of_rules)?;
    Ok(Judgement {
        tree: design.tree,
        first,
    })
}
