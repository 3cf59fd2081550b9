//! The names of a whole design, and its declarations.

ghost use Rattle.std.specs.Prelude.{◌≡◌, map, IfOk};
ghost use Rattle.vd_predefined.specs.Given.{given_scopes};
ghost use Rattle.vd_name_rows.specs.Designs.{begin_design};
ghost use Rattle.vd_naming.specs.Naming.{begin as begin_at, names_of as names_found};
ghost use Rattle.vd_naming.specs.Settled.{settled_declaration};
ghost use Rattle.vd_walks.specs.Outcomes.{IsOutcome};

use crate::naming::Naming;
use crate::{Settling, settle_declaration};
use std::alloc::{AllocError, Global};
use vd_bytes::Place;
use vd_declarations::{DeclId, Declaration, RegionId};
use vd_forest::{Cursor, Store};
use vd_forms::Form;
use vd_name_entering::Units;
use vd_name_rows::{At, Names, Step, Word};
use vd_predefined::given;
use vd_predefined::numbers::REGION_OF_LIBRARIES;
use vd_regions::Regions;
use vd_resolved::Resolved;
use vd_trees::Revision;
use vd_walks::{Outcome, walk};

/// No place of a text.
const NO_PLACE: Place = Place {
    file: 0,
    line: 0,
    column: 0,
};

/// What is known in front of all units.
fn begin<'a>(alloc: Global, revision: Revision) -> At<'a>
    ensures { result ≡ begin_at revision }
{
    At {
        revision,
        unit: 0,
        region: RegionId::of(REGION_OF_LIBRARIES),
        is_package: false,
        ports: None,
        word: Word {
            form: Form::Identifier,
            text: &[],
        },
        word_place: NO_PLACE,
        label_place: NO_PLACE,
        is_loop: false,
        named: None,
        mark: None,
        selector: None,
        is_matching: false,
        result: None,
        viewed: None,
        actuals: Vec::new(alloc),
        header: 0,
        header_end: 0,
        header_regions: 0,
        function: None,
        next: 0,
        steps: &[],
        rest: Step::Look,
    }
}

/// What is given to each design of a revision, and nothing else.
pub fn given_names(alloc: Global, revision: Revision) -> Result<Names, AllocError>
    ensures { IfOk result (λ names. names ≡ begin_design (given_scopes revision)) }
{
    let mut regions = Regions::new(alloc)?;
    given(alloc, &mut regions, revision)?;
    let names = Names::new(alloc, regions)?;
    Ok(names)
}

/// Walks over the units of a design: the tree in which each name has its declaration and each expression its type, the first rule on names that is
/// broken, and what is declared, behind what is given in `names`. Where a number of a declaration, a region or a unit would pass 32 bits, it ends as
/// where memory does.
pub fn walk_units<'a>(
    alloc: Global,
    revision: Revision,
    units: &Cursor<'a, Form>,
    names: &mut Names,
    out: &mut Store<Resolved>,
) -> Result<Outcome<At<'a>>, AllocError>
    requires { names.old ≡ begin_design (given_scopes revision) }
    ensures { IfOk result (λ outcome. IsOutcome out.new names.new outcome (names_found revision units.now)) }
{
    let naming = Naming::of(Units::of(alloc, units)?);
    let outcome = walk(alloc, units, begin(alloc, revision), names, out, &naming)?;
    Ok(outcome)
}

/// The declarations of a design by their numbers, where those of the headers of bodies are settled.
#[tactic(auto, using(crate::proofs::SettledLemmas::settled_step))]
pub fn settled_declarations(
    alloc: Global,
    settling: &Settling,
    names: &Names,
) -> Result<Vec<Declaration>, AllocError>
    ensures { IfOk result (λ made. made.items ≡ map (λ e. settled_declaration settling.now e.declaration) names.now.scopes.entered) }
{
    let regions = names.regions();
    let mut made = Vec::new(alloc);
    let mut next = 0;
    while regions.is_declaration(DeclId::of(next)) {
        let declared = regions.declaration(DeclId::of(next));
        made.push(settle_declaration(alloc, settling, declared)?)?;
        let Some(more) = next.checked_add(1) else {
            return Err(AllocError);
        };
        next = more;
    }
    Ok(made)
}
