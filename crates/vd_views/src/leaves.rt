//! The elements with a mode of their own in a view, with those of the views inside it.

ghost use Rattle.std.specs.Prelude.{◌≡◌};
ghost use Rattle.vd_views.specs.Modes.{conversed as mode_through, differ as they_differ, swapped as swapped_mode};

use crate::views::{Element, ElementMode, Mode, Views};
use std::alloc::{AllocError, Global};
use vd_declarations::DeclId;

/// A step from a record to one of its elements, which stands behind so many others.
#[derive(Clone, Copy)]
pub(crate) struct Step {
    pub(crate) field: DeclId,
    pub(crate) position: u32,
}

/// An element with a mode of its own: the steps to it, and its mode.
#[derive(Drop)]
pub(crate) struct Leaf {
    pub(crate) path: Vec<Step>,
    pub(crate) mode: Mode,
}

/// A view whose elements are being gone through: the place of the next one, and whether `in` and `out` are exchanged.
#[derive(Clone, Copy)]
struct Level {
    view: u32,
    next: u32,
    is_converse: bool,
}

/// The views in which the walk stands, the innermost one last, the steps so far, and what was found.
#[derive(Drop)]
struct Walk {
    round: Vec<Level>,
    path: Vec<Step>,
    found: Vec<Leaf>,
}

/// The mode that a converse has in the place of another. (IEEE 1076-2019, 6.5.2)
fn swapped(mode: Mode) -> Mode
    ensures { result ≡ swapped_mode mode }
{
    match mode {
        Mode::In => Mode::Out,
        Mode::Out => Mode::In,
        Mode::InOut => Mode::InOut,
    }
}

/// The mode, with `in` and `out` exchanged where the view is a converse.
fn conversed(is_converse: bool, mode: Mode) -> Mode
    ensures { result ≡ mode_through is_converse mode }
{
    if is_converse { swapped(mode) } else { mode }
}

/// Whether a view inside another is a converse, where it is named as one or not.
fn differ(one: bool, other: bool) -> bool
    ensures { result ≡ they_differ one other }
{
    if one { !other } else { other }
}

impl Walk {
    /// The element to which the steps lead has a mode of its own.
    fn find(&mut self, alloc: Global, mode: Mode) -> Result<(), AllocError> {
        let path = Vec::from_slice(alloc, self.path.as_slice())?;
        self.found.push(Leaf { path, mode })?;
        Ok(())
    }

    /// The element to which the steps lead has a view.
    fn go_inside(&mut self, view: u32, is_converse: bool) -> Result<(), AllocError> {
        self.round.push(Level {
            view,
            next: 0,
            is_converse,
        })?;
        Ok(())
    }

    /// Goes on with an element of a view: it is found, or its view comes first.
    fn stand_at(
        &mut self,
        alloc: Global,
        level: Level,
        element: Element,
    ) -> Result<(), AllocError> {
        self.path.push(Step {
            field: element.field,
            position: level.next,
        })?;
        self.round.push(Level {
            next: level.next.saturating_add(1),
            ..level
        })?;
        match element.mode {
            ElementMode::Plain(mode) => self.find(alloc, conversed(level.is_converse, mode)),
            ElementMode::ByView { view, is_converse } => {
                self.go_inside(view, differ(is_converse, level.is_converse))
            }
        }
    }

    /// Goes on from a view that stood inside those of the round.
    fn go_on(
        &mut self,
        alloc: Global,
        views: &Views<'_, '_>,
        level: Level,
    ) -> Result<(), AllocError> {
        self.path.truncate(self.round.len());
        match views.element(level.view, level.next) {
            Some(element) => self.stand_at(alloc, level, element),
            None => Ok(()),
        }
    }
}

/// The elements of a view that have a mode of their own, in the order of the record.
pub(crate) fn leaves(
    alloc: Global,
    views: &Views<'_, '_>,
    view: u32,
    is_converse: bool,
) -> Result<Vec<Leaf>, AllocError> {
    let mut walk = Walk {
        round: Vec::new(alloc),
        path: Vec::new(alloc),
        found: Vec::new(alloc),
    };
    walk.round.push(Level {
        view,
        next: 0,
        is_converse,
    })?;
    // No port has so many elements.
    for _ in 0..u64::MAX {
        let Some(level) = walk.round.pop() else {
            break;
        };
        walk.go_on(alloc, views, level)?;
    }
    Ok(walk.found)
}
