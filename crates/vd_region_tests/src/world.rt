//! Regions and declarations with labels.

use std::alloc::{AllocError, Global};
use vd_declarations::{DeclId, RegionId};
use vd_predefined::given;
use vd_regions::Regions;
use vd_trees::Revision;

/// Regions, and what the steps call each region and each declaration, by number.
#[derive(Drop)]
pub struct World {
    pub regions: Regions,
    pub region_labels: Vec<String>,
    pub labels: Vec<String>,
}

/// The labels of the first regions that are given.
const GIVEN_REGIONS: &[&str] = &[
    "root",
    "unnamed",
    "work",
    "std",
    "ieee",
    "standard",
    "std_logic_1164",
];

/// A world with these regions, in which nothing has a label.
pub fn unlabelled(alloc: Global, regions: Regions) -> World {
    World {
        regions,
        region_labels: Vec::new(alloc),
        labels: Vec::new(alloc),
    }
}

/// The regions that are given in a revision.
pub fn given_regions(alloc: Global, revision: Revision) -> Result<Regions, AllocError> {
    let mut regions = Regions::new(alloc)?;
    given(alloc, &mut regions, revision)?;
    Ok(regions)
}

/// Adds a label behind others.
pub fn add_label(alloc: Global, labels: &mut Vec<String>, label: &str) -> Result<(), AllocError> {
    let own = String::from_str(alloc, label)?;
    labels.push(own)?;
    Ok(())
}

/// Gives the regions that are given their labels, and those behind them none.
pub fn label_regions(alloc: Global, world: &mut World) -> Result<(), AllocError> {
    for number in 0..4294967295u32 {
        if !world.regions.is_region(RegionId::of(number)) {
            break;
        }
        let label = match GIVEN_REGIONS.get(number as usize) {
            Some(label) => label,
            None => "",
        };
        add_label(alloc, &mut world.region_labels, label)?;
    }
    Ok(())
}

/// Gives each declaration its name as label.
pub fn label_declarations(alloc: Global, world: &mut World) -> Result<(), AllocError> {
    for number in 0..4294967295u32 {
        let id = DeclId::of(number);
        if !world.regions.is_declaration(id) {
            break;
        }
        let name = world.regions.declaration(id).name.as_slice();
        add_label(alloc, &mut world.labels, text_of(name))?;
    }
    Ok(())
}

impl World {
    /// The region of a label, the newest where several have it.
    pub fn region(&self, label: &str) -> Option<RegionId> {
        let at = last_of(&self.region_labels, label)?;
        Some(RegionId::of(at))
    }

    /// The declaration of a label, the newest where several have it.
    pub fn id(&self, label: &str) -> Option<DeclId> {
        let at = last_of(&self.labels, label)?;
        Some(DeclId::of(at))
    }

    /// The label of a declaration.
    pub fn label(&self, id: DeclId) -> &str {
        match self.labels.get(id.number() as usize) {
            Some(label) => label.as_str(),
            None => "?",
        }
    }
}

/// The place of the last label that is this one.
fn last_of(labels: &[String], label: &str) -> Option<u32> {
    let mut found = None;
    for (at, one) in labels.iter().enumerate() {
        if one.as_str() == label && at < 4294967295 {
            found = Some(at as u32);
        }
    }
    found
}

/// Bytes as a text, where they are one.
pub fn text_of(bytes: &[u8]) -> &str {
    match str::from_utf8(bytes) {
        Ok(text) => text,
        Err(_) => "?",
    }
}
