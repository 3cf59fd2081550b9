//! The surroundings of a place.

ghost use Rattle.std.specs.Prelude.{◌≡◌, ◌<◌, ◌∷◌, [], IfOk, length};
ghost use Rattle.vd_regions.specs.Scopes.{declaration_at};
ghost use Rattle.vd_visible.specs.Sights.{sight_from, class_of, mark_of, name_of, parameters_of, is_port, oldest_port, port_in, visible_from};
ghost use Rattle.vd_visible.specs.Types.{all_types};

use std::alloc::{AllocError, Global};
use std::marker::Model;
use vd_declarations::{Class, DeclId, RegionId, TypeId};
use vd_regions::Regions;
use vd_trees::Revision;

/// What is known at a place of a design: the regions and declarations so far, the region of the place, that of ports that are looked up first, and all types so far.
#[derive(Drop)]
pub struct Surroundings<'a> {
    revision: Revision,
    regions: &'a Regions,
    region: RegionId,
    ports: Option<RegionId>,
    types: &'a [TypeId],
}

impl<'a> Model for Surroundings<'a> {
    ghost use Rattle.std.specs.Prelude.{◌≡◌};
    ghost use Rattle.vd_visible.specs.Sights.{Standpoint, sight_from};
    ghost use Rattle.vd_visible.specs.Types.{all_types};

    ghost Value = { Standpoint };

    ghost view = { λ a. record { revision = a.revision; scopes = a.regions.now; region = a.region; ports = a.ports } };

    ghost invariant = { λ a. a.types.now ≡ all_types (sight_from (record { revision = a.revision; scopes = a.regions.now; region = a.region; ports = a.ports })) };
}

impl<'a> Surroundings<'a> {
    /// Those of a place in a region, where the ports of another one may be looked up first. The types are all that are declared so far, in the
    /// order of their declarations.
    pub fn of(
        revision: Revision,
        regions: &'a Regions,
        region: RegionId,
        ports: Option<RegionId>,
        types: &'a [TypeId],
    ) -> Surroundings<'a>
        requires { types.now ≡ all_types (sight_from (record { revision = revision; scopes = regions.now; region = region; ports = ports })) }
        ensures { result ≡ record { revision = revision; scopes = regions.now; region = region; ports = ports } }
    {
        Surroundings {
            revision,
            regions,
            region,
            ports,
            types,
        }
    }

    /// The revision.
    pub fn revision(&self) -> Revision
        ensures { result ≡ self.now.revision }
    {
        self.revision
    }

    /// All types that are declared so far.
    pub fn types(&self) -> &'a [TypeId]
        ensures { result.now ≡ all_types (sight_from self.now) }
    {
        self.types
    }

    /// What kind of declaration it is.
    pub fn class_of(&self, id: DeclId) -> Class
        ensures { result ≡ class_of (sight_from self.now) id }
    {
        class_in(self.regions, id)
    }

    /// The type of a declaration.
    pub fn mark_of(&self, id: DeclId) -> Option<TypeId>
        ensures { result ≡ mark_of (sight_from self.now) id }
    {
        if !self.regions.is_declaration(id) {
            return None;
        }
        self.regions.declaration(id).mark
    }

    /// The name of a declaration.
    pub fn name_of(&self, id: DeclId) -> &'a [u8]
        ensures { result.now ≡ name_of (sight_from self.now) id }
    {
        if !self.regions.is_declaration(id) {
            return &[];
        }
        let declaration = self.regions.declaration(id);
        declaration.name.as_slice()
    }

    /// The parameters of a function, or the elements of a record type.
    pub fn parameters_of(&self, id: DeclId) -> &'a [DeclId]
        ensures { result.now ≡ parameters_of (sight_from self.now) id }
    {
        if !self.regions.is_declaration(id) {
            return &[];
        }
        let declaration = self.regions.declaration(id);
        declaration.parameters.as_slice()
    }

    /// What a name means that stands alone and is no port that is looked up first.
    fn visible_here(&self, alloc: Global, name: &[u8]) -> Result<Vec<DeclId>, AllocError>
        ensures { IfOk result (λ found. found.items ≡ visible_from self.now name.now) }
    {
        let Ok(name) = str::from_utf8(name) else {
            return Ok(Vec::new(alloc));
        };
        let found = self.regions.visible(alloc, self.region, name)?;
        Ok(found)
    }

    /// What a name means that stands alone.
    pub fn visible(&self, alloc: Global, name: &[u8]) -> Result<Vec<DeclId>, AllocError>
        ensures { IfOk result (λ found. found.items ≡ (sight_from self.now).visible name.now) }
    {
        match port_in(alloc, self.regions, self.ports, name)? {
            None => self.visible_here(alloc, name),
            Some(port) => only(alloc, port),
        }
    }

    /// What a name means behind a prefix that names a declaration.
    pub fn selected(
        &self,
        alloc: Global,
        prefix: DeclId,
        name: &[u8],
    ) -> Result<Vec<DeclId>, AllocError>
        ensures { IfOk result (λ found. found.items ≡ (sight_from self.now).selected prefix name.now) }
    {
        let Ok(name) = str::from_utf8(name) else {
            return Ok(Vec::new(alloc));
        };
        let found = self.regions.selected(alloc, self.region, prefix, name)?;
        Ok(found)
    }
}

/// What kind of declaration it is. That of a number that isn't given out is a label.
fn class_in(regions: &Regions, id: DeclId) -> Class
    ensures { result ≡ (declaration_at regions.now id).class }
{
    if !regions.is_declaration(id) {
        return Class::Label;
    }
    regions.declaration(id).class
}

/// Whether a declaration of the class is a port.
fn is_port_class(class: Class) -> bool
    ensures { result ≡ is_port class }
{
    matches!(class, Class::Port)
}

/// The first port among some declarations, of which the newest stands first.
#[tactic(auto, using(crate::proofs::PortLemmas::port_step))]
fn oldest_port(regions: &Regions, newest: &[u32]) -> Option<DeclId>
    ensures { result ≡ oldest_port regions.now newest.now }
{
    let mut oldest = None;
    for number in newest {
        let id = DeclId::of(*number);
        if is_port_class(class_in(regions, id)) {
            oldest = Some(id);
        }
    }
    oldest
}

/// The first port of a name that a region has, where there is a region.
pub fn port_in(
    alloc: Global,
    regions: &Regions,
    region: Option<RegionId>,
    name: &[u8],
) -> Result<Option<DeclId>, AllocError>
    ensures { IfOk result (λ port. port ≡ port_in regions.now region name.now) }
{
    match region {
        None => Ok(None),
        Some(region) => {
            let newest = regions.entered_under(alloc, region, name)?;
            Ok(oldest_port(regions, newest.as_slice()))
        }
    }
}

/// One declaration.
fn only(alloc: Global, id: DeclId) -> Result<Vec<DeclId>, AllocError>
    ensures { IfOk result (λ ids. ids.items ≡ id ∷ []) }
{
    let mut ids = Vec::new(alloc);
    ids.push(id)?;
    Ok(ids)
}
