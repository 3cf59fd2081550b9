//! What is known while a tree is written.

use crate::clauses::Used;
use crate::levels::{Level, Parts};
use crate::qualified::Candidate;
use std::alloc::{AllocError, Global};
use vd_bytes::Place;
use vd_declarations::{DeclId, Declaration, RegionId, TypeId};
use vd_forms::Form;
use vd_name_rows::{At, Names, Step, Word};
use vd_names::Chosen;
use vd_notes::Tables;
use vd_predefined::given;
use vd_predefined::numbers::{REGION_OF_LIBRARIES, UX01Z};
use vd_regions::Regions;
use vd_resolved::Tree;
use vd_trees::Revision;

/// No place of a text.
pub(crate) const NO_PLACE: Place = Place {
    file: 0,
    line: 0,
    column: 0,
};

/// How many declarations have the same numbers in all designs of both revisions: libraries, packages, types, subtypes, literals and units.
pub(crate) const SHARED: u32 = UX01Z + 1;

/// What is known while a tree is written. Numbers of declarations are those of the tree, and those of `names` are called others.
#[derive(Drop)]
pub(crate) struct Writer<'a> {
    pub(crate) alloc: Global,
    pub(crate) declarations: &'a [Declaration],
    pub(crate) tables: &'a Tables,
    pub(crate) chosen: &'a Chosen,
    /// The regions and declarations of the text that is written so far, and the place in it.
    pub(crate) names: Names,
    pub(crate) at: At<'static>,
    /// The other declaration of each number, where it is written so far.
    pub(crate) link: Vec<Option<DeclId>>,
    /// Which units see the library `ieee`, by number.
    pub(crate) sees_ieee: Vec<bool>,
    pub(crate) levels: Vec<Level>,
    /// The unit round the place, and the primary unit that it belongs to, where it is a secondary one.
    pub(crate) unit: Option<u32>,
    pub(crate) primary: Option<u32>,
    /// Whether the unit names `ieee`, and whether it has a clause for it.
    pub(crate) wants_ieee: bool,
    pub(crate) has_ieee: bool,
    /// The type of the selector round the place.
    pub(crate) selector: Option<TypeId>,
    /// The entity of the instance round the place.
    pub(crate) entity: Option<u32>,
    pub(crate) used: Used,
    /// The parts of the expression round the place that may be qualified.
    pub(crate) candidates: Vec<Candidate>,
}

/// The place in front of all units.
fn begin(alloc: Global) -> At<'static> {
    At {
        revision: Revision::V1993,
        unit: 0,
        region: RegionId::of(REGION_OF_LIBRARIES),
        is_package: false,
        ports: None,
        word: Word {
            form: Form::Identifier,
            text: &[],
        },
        word_place: NO_PLACE,
        label_place: NO_PLACE,
        is_loop: false,
        named: None,
        mark: None,
        selector: None,
        is_matching: false,
        result: None,
        viewed: None,
        actuals: Vec::new(alloc),
        header: 0,
        header_end: 0,
        header_regions: 0,
        function: None,
        next: 0,
        steps: &[],
        rest: Step::Look,
    }
}

/// What is given to each design of revision 1993.
fn given_names(alloc: Global) -> Result<Names, AllocError> {
    let mut regions = Regions::new(alloc)?;
    given(alloc, &mut regions, Revision::V1993)?;
    let names = Names::new(alloc, regions)?;
    Ok(names)
}

/// Those of the given declarations, each to itself.
fn own_links(alloc: Global) -> Result<Vec<Option<DeclId>>, AllocError> {
    let mut link: Vec<Option<DeclId>> = Vec::new(alloc);
    for number in 0..SHARED {
        link.push(Some(DeclId::of(number)))?;
    }
    Ok(link)
}

/// The other declarations of so many numbers, where those that both revisions share are written.
fn shared_links(alloc: Global, count: usize) -> Result<Vec<Option<DeclId>>, AllocError> {
    let mut link = own_links(alloc)?;
    while link.len() < count {
        link.push(None)?;
    }
    Ok(link)
}

impl<'a> Writer<'a> {
    /// Nothing is written so far.
    pub(crate) fn new(
        alloc: Global,
        tree: &'a Tree,
        tables: &'a Tables,
        chosen: &'a Chosen,
    ) -> Result<Writer<'a>, AllocError> {
        let declarations = tree.declarations();
        let names = given_names(alloc)?;
        let link = shared_links(alloc, declarations.len())?;
        let sees_ieee: Vec<bool> = vec![in alloc; false; declarations.len()]?;
        Ok(Writer {
            alloc,
            declarations,
            tables,
            chosen,
            names,
            at: begin(alloc),
            link,
            sees_ieee,
            levels: Vec::new(alloc),
            unit: None,
            primary: None,
            wants_ieee: false,
            has_ieee: false,
            selector: None,
            entity: None,
            used: Used::new(alloc),
            candidates: Vec::new(alloc),
        })
    }

    /// The declaration of a number.
    pub(crate) fn declaration(&self, number: u32) -> Option<&'a Declaration> {
        self.declarations.get(number as usize)
    }

    /// The name that a declaration is written with.
    pub(crate) fn name_of(&self, number: u32) -> &'a [u8] {
        if let Some(Some(name)) = self.chosen.names.get(number as usize) {
            return name.as_slice();
        }
        match self.declaration(number) {
            Some(declaration) => declaration.name.as_slice(),
            None => &[],
        }
    }

    /// The level whose parts are walked, where the part that comes next is counted. There is none round all units.
    pub(crate) fn next_part(&mut self) -> Option<Level> {
        if let Some(level) = self.levels.last_mut() {
            let before = *level;
            level.next = before.next.saturating_add(1);
            return Some(before);
        }
        None
    }

    /// What a closing name is the name of.
    pub(crate) fn closed(&self) -> Option<u32> {
        let level = self.levels.last()?;
        level.closes
    }

    /// Goes into a tree that has no steps.
    pub(crate) fn go_inside(&mut self, parts: Parts) -> Result<(), AllocError> {
        let closes = self.closed();
        let level = Level {
            closes,
            selector: self.selector,
            ..Level::plain(parts, self.at.region)
        };
        self.levels.push(level)?;
        Ok(())
    }
}
