//! Regions that steps fill.

ghost use Rattle.std.specs.Prelude.{◌≡◌, ◌<◌, length, IfOk};

use anyhow::bail;
use std::alloc::Global;
use vd_bytes::{Place, Text};
use vd_declarations::{Class, DeclId, Declaration, Declarations, Made, RegionId, TypeId};
use vd_predefined::given;
use vd_regions::{EnterEnd, Regions};
use vd_trees::Revision;

/// What is given, and what the steps have declared.
#[derive(Drop)]
pub struct World {
    pub regions: Regions,
    pub revision: Revision,
    /// The region that the steps fill.
    pub here: RegionId,
}

/// The regions of the library `work` and of the package `ieee.std_logic_1164`.
const WORK: u32 = 2;

const LOGIC: u32 = 6;

/// The first place of a file.
const FIRST: Place = Place {
    file: 0,
    line: 1,
    column: 1,
};

/// What is given in a revision.
pub fn new_world(alloc: Global, revision: Revision) -> anyhow::Result<World> {
    let mut regions = Regions::new(alloc)?;
    if given(alloc, &mut regions, revision).is_err() {
        bail!("what is given can't be entered");
    }
    let here = regions.root();
    Ok(World {
        regions,
        revision,
        here,
    })
}

/// Enters a declaration under a name in a region.
fn entered(
    alloc: Global,
    regions: &mut Regions,
    region: RegionId,
    class: Class,
    name: &str,
    mark: Option<TypeId>,
    parameters: Vec<DeclId>,
    inside: Option<RegionId>,
) -> Result<DeclId, EnterEnd> {
    let own = Text::from_slice(alloc, name.as_bytes())?;
    let wanted = Text::from_slice(alloc, name.as_bytes())?;
    regions.enter(
        region,
        name,
        Declaration {
            class,
            name: own,
            mark,
            parameters: Declarations::of(parameters),
            generics: Declarations::of(Vec::new(alloc)),
            inside,
            place: FIRST,
            made: Made::Written,
            wanted,
        },
    )
}

impl World {
    /// A region inside another is the one that the next steps fill.
    pub fn nest(&mut self, outer: RegionId) -> anyhow::Result<RegionId> {
        if !self.regions.is_region(outer) {
            bail!("there is no such region");
        }
        let inner = self.regions.nest(outer)?;
        self.here = inner;
        Ok(inner)
    }

    /// All of a region can be seen in another.
    fn use_all(&mut self, region: RegionId, from: RegionId) -> anyhow::Result<()> {
        if !self.regions.is_region(region) {
            bail!("there is no such region");
        }
        self.regions.use_name(region, from, None)?;
        Ok(())
    }

    /// A region of a unit, which sees IEEE 1164.
    pub fn unit(&mut self) -> anyhow::Result<RegionId> {
        let root = self.regions.root();
        let inner = self.nest(root)?;
        self.use_all(inner, RegionId::of(LOGIC))?;
        Ok(inner)
    }

    /// A package of the library `work`, which the next steps fill.
    pub fn package(&mut self, alloc: Global, name: &str) -> anyhow::Result<()> {
        let inside = self.unit()?;
        self.enter(
            alloc,
            RegionId::of(WORK),
            Class::Package,
            name,
            None,
            Vec::new(alloc),
            Some(inside),
        )?;
        Ok(())
    }

    /// The end of the region that the steps fill.
    pub fn end(&mut self) -> anyhow::Result<()> {
        if !self.regions.is_region(self.here) {
            bail!("there is no such region");
        }
        self.regions.close(self.here);
        Ok(())
    }

    /// What the names between points lead to, the first where there are several.
    pub fn find(&self, alloc: Global, path: &str) -> anyhow::Result<DeclId> {
        let mut found = None;
        for name in path.split('.') {
            let ids = match found {
                None => self.regions.visible(alloc, self.here, name)?,
                Some(prefix) => self.regions.selected(alloc, self.here, prefix, name)?,
            };
            match ids.first() {
                Some(id) => found = Some(*id),
                None => bail!("{name} isn't visible"),
            }
        }
        match found {
            Some(id) => Ok(id),
            None => bail!("a name is missing"),
        }
    }

    /// A declaration.
    pub fn declaration(&self, id: DeclId) -> anyhow::Result<&Declaration> {
        if !self.regions.is_declaration(id) {
            bail!("there is no such declaration");
        }
        Ok(self.regions.declaration(id))
    }

    /// The type that a mark names, or of which it names a subtype.
    pub fn base(&self, mark: DeclId) -> anyhow::Result<TypeId> {
        match self.declaration(mark)?.mark {
            Some(base) => Ok(base),
            None => Ok(TypeId::of(mark.number())),
        }
    }

    /// All of a package of the library `work` can be seen in the region that the steps fill.
    pub fn use_package(&mut self, alloc: Global, path: &str) -> anyhow::Result<()> {
        let package = self.find(alloc, path)?;
        match self.declaration(package)?.inside {
            Some(inside) => self.use_all(self.here, inside),
            None => bail!("{path} is no package"),
        }
    }

    /// Enters a declaration.
    pub fn enter(
        &mut self,
        alloc: Global,
        region: RegionId,
        class: Class,
        name: &str,
        mark: Option<TypeId>,
        parameters: Vec<DeclId>,
        inside: Option<RegionId>,
    ) -> anyhow::Result<DeclId> {
        let regions = &mut self.regions;
        match entered(
            alloc, regions, region, class, name, mark, parameters, inside,
        ) {
            Ok(id) => Ok(id),
            Err(_) => bail!("{name} can't be entered"),
        }
    }
}
