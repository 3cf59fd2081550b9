//! What is counted of the declarations so far.

ghost use Rattle.std.specs.Prelude.{◌≡◌, ◌≤◌, OnOk, length, nat_lt, not};
ghost use Rattle.vd_name_rows.specs.Counts.{AreCounted, AreMembers};

use crate::members::Members;
use std::alloc::{AllocError, Global};
use vd_declarations::{DeclId, TypeId};
use vd_regions::Regions;
use vd_visible::type_lists::add_types;

/// The first declarations, as many as `counted` says: which of them are types, and which stand in each region.
#[derive(Drop)]
pub(crate) struct Counts {
    pub(crate) counted: u32,
    pub(crate) types: Vec<TypeId>,
    pub(crate) members: Members,
}

impl Counts {
    /// Nothing is counted.
    pub(crate) fn new(alloc: Global, regions: &Regions) -> Counts
        ensures { AreCounted regions.now result }
    {
        Counts {
            counted: 0,
            types: Vec::new(alloc),
            members: Members::new(alloc),
        }
    }

    /// Whether all declarations are counted.
    pub(crate) fn is_complete(&self, regions: &Regions) -> bool
        ensures { result ≡ not (nat_lt self.now.counted (length regions.now.entered)) }
    {
        !regions.is_declaration(DeclId::of(self.counted))
    }

    /// Counts what isn't counted yet. After an Err nothing is known of what is counted.
    pub(crate) fn go_on(&mut self, regions: &Regions) -> Result<(), AllocError>
        requires { AreCounted regions.now self.old }
        ensures { OnOk result (AreCounted regions.now self.new) }
    {
        let counted = add_types(regions, self.counted, &mut self.types)?;
        add_members(regions, self.counted, counted, &mut self.members)?;
        self.counted = counted;
        Ok(())
    }
}

/// Adds the declarations of these numbers to those of their regions.
fn add_members(
    regions: &Regions,
    from: u32,
    to: u32,
    members: &mut Members,
) -> Result<(), AllocError>
    requires before { AreMembers regions.now from members.old }
    requires within { from ≤ to }
    requires inside { to ≤ length regions.now.entered }
    ensures { OnOk result (AreMembers regions.now to members.new) }
{
    let mut next = from;
    while next < to {
        let id = DeclId::of(next);
        members.add(regions.region_of(id).number(), id)?;
        next += 1;
    }
    Ok(())
}
