//! A design with the copies for an instance.

ghost use Rattle.std.specs.Prelude.{◌≡◌, ◌++◌, ◌∷◌, [], IfOk, OnOk, map};
ghost use Rattle.vd_name_rows.specs.Designs.{sight};
ghost use Rattle.vd_naming.specs.Copies.{copying, copy_of_region, entries_of_copies, some_of, unseen_region, with_copies};
ghost use Rattle.vd_name_instances.specs.Copied.{seen_region, with_entries, with_regions, IsInstance, AreCopies};
ghost use Rattle.vd_name_instances.specs.Sources.{seen_copying};

use crate::copying::Copying;
use crate::instances::Instance;
use crate::numbers::Offsets;
use crate::regions::RegionCopy;
use std::alloc::{AllocError, Global};
use vd_declarations::{DeclId, RegionId};
use vd_name_actuals::StandIns;
use vd_name_rows::{Actual, At, Names};
use vd_regions::entries::Entered;

/// All copies for an instance, which aren't in the design yet.
#[derive(Drop)]
pub(crate) struct Copies {
    pub(crate) entries: Vec<Entered>,
    pub(crate) regions: Vec<RegionCopy>,
    pub(crate) offsets: Offsets,
    pub(crate) generics: StandIns,
    pub(crate) instance: Instance,
}

impl<'a> Copying<'a> {
    /// What the declaration of the instance takes from that of the package or function.
    fn instance(&self, alloc: Global) -> Result<Instance, AllocError>
        ensures { IfOk result (λ made. IsInstance made (seen_copying self.now)) }
    {
        let number = self.offsets.number_behind()?;
        let parameters = self.numbers_of_copies(alloc, self.names.parameters_of(self.id))?;
        let generics = self.numbers_of_copies(alloc, self.names.generics_of(self.id))?;
        let mark = self.copy_of_mark(self.names.mark_of(self.id))?;
        Ok(Instance {
            number,
            parameters,
            generics,
            inside: RegionId::of(self.offsets.first_region),
            mark,
        })
    }
}

/// All copies for an instance whose declaration stands at a place.
fn copies_of(
    alloc: Global,
    names: &Names,
    id: DeclId,
    outer: &At<'_>,
    actuals: &[Actual],
) -> Result<Copies, AllocError>
    ensures { IfOk result (λ copies. AreCopies copies
        (copying id outer.now.region (sight outer.now names.now) actuals.now names.now) names.now) }
{
    let copying = Copying::of(alloc, names, id, outer, actuals)?;
    let entries = copying.entries_of_copies(alloc, names)?;
    let regions = copying.regions_of_copies(alloc, names)?;
    let instance = copying.instance(alloc)?;
    let Copying {
        offsets,
        generics,
        ..
    } = copying;
    Ok(Copies {
        entries,
        regions,
        offsets,
        generics,
        instance,
    })
}

/// Enters these behind all others.
#[tactic(auto, using(crate::proofs::AddingLemmas::entry_more, crate::proofs::AddingLemmas::no_entries))]
fn add_entries(names: &mut Names, entries: Vec<Entered>) -> Result<(), AllocError>
    ensures { OnOk result (names.new ≡ with_entries entries.items names.old) }
{
    for entry in entries {
        names.add(RegionId::of(entry.region), entry.declaration)?;
    }
    Ok(())
}

/// Opens these behind all others.
#[tactic(auto, using(crate::proofs::AddingLemmas::region_more, crate::proofs::AddingLemmas::no_regions))]
fn add_regions(names: &mut Names, regions: &[RegionCopy]) -> Result<(), AllocError>
    ensures { OnOk result (names.new ≡ with_regions (map seen_region regions.now) names.old) }
{
    for region in regions {
        names.open(region.outer, region.continues, region.closed)?;
    }
    Ok(())
}

/// Adds all that an instance declares whose own declaration stands at a place: the copies of what the package or function with generics
/// declares, behind all others. The instance itself isn't entered. After an Err some copies may be added.
#[tactic(auto, using(crate::proofs::AddingLemmas::all_added))]
pub fn add_copies(
    alloc: Global,
    names: &mut Names,
    id: DeclId,
    outer: &At<'_>,
    actuals: &[Actual],
) -> Result<Instance, AllocError>
    ensures design { OnOk result (names.new
        ≡ with_copies (copying id outer.now.region (sight outer.now names.old) actuals.now names.old) names.old) }
    ensures instance { IfOk result (λ made. IsInstance made (copying id outer.now.region (sight outer.now names.old) actuals.now names.old)) }
{
    let Copies {
        entries,
        regions,
        offsets,
        generics,
        instance,
    } = copies_of(alloc, names, id, outer, actuals)?;
    add_entries(names, entries)?;
    add_regions(names, regions.as_slice())?;
    offsets.note_copies(names, &generics)?;
    Ok(instance)
}
