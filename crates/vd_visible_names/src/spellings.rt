//! How the name of a declaration is written at a place.

use crate::linking::is_unit;
use crate::writer::{SHARED, Writer};
use std::alloc::AllocError;
use vd_declarations::{Class, DeclId, RegionId};
use vd_predefined::numbers::{IEEE, STANDARD, STD, STD_LOGIC_1164, STD_ULOGIC, UX01Z};

/// Where a declaration of another unit stands: its library, and its unit unless it is one itself.
#[derive(Clone, Copy)]
pub(crate) struct Home<'a> {
    pub(crate) library: &'static [u8],
    pub(crate) unit: Option<&'a [u8]>,
}

/// How a name is written.
#[derive(Clone, Copy)]
pub(crate) enum Spelling<'a> {
    /// Alone.
    Alone,
    /// Behind its library and its unit.
    Selected(Home<'a>),
    /// The literal of an enumeration type, by the type and its position.
    Value { mark: u32, position: u32 },
}

/// Whether a declaration is one of some.
fn has(found: &[DeclId], id: DeclId) -> bool {
    for other in found {
        if *other == id {
            return true;
        }
    }
    false
}

/// Whether it is the only one of some.
fn is_only(found: &[DeclId], id: DeclId) -> bool {
    match found {
        [other] => *other == id,
        _ => false,
    }
}

/// The home of what both revisions share.
fn given_home(number: u32) -> Option<Home<'static>> {
    if number == STANDARD {
        return Some(Home {
            library: b"std",
            unit: None,
        });
    }
    if number == STD_LOGIC_1164 {
        return Some(Home {
            library: b"ieee",
            unit: None,
        });
    }
    if number <= IEEE || number > UX01Z {
        return None;
    }
    if number < STD_ULOGIC {
        return Some(Home {
            library: b"std",
            unit: Some(b"standard"),
        });
    }
    Some(Home {
        library: b"ieee",
        unit: Some(b"std_logic_1164"),
    })
}

/// The name of a library that is given.
pub(crate) fn library_of(number: u32) -> &'static [u8] {
    match number {
        STD | STANDARD => b"std",
        IEEE | STD_LOGIC_1164 => b"ieee",
        _ => b"work",
    }
}

impl<'a> Writer<'a> {
    /// Whether some declarations are what a name has to mean.
    fn are_meant(&self, number: u32, found: &[DeclId]) -> bool {
        let Some(other) = self.linked(number) else {
            return self.is_among(number, found);
        };
        if self.names.class_of(other).is_overloadable() {
            has(found, other)
        } else {
            is_only(found, other)
        }
    }

    /// Whether a name alone means a declaration at the place.
    pub(crate) fn is_visible(&self, number: u32, name: &[u8]) -> Result<bool, AllocError> {
        let place = self.names.surroundings(&self.at)?;
        let found = place.visible(self.alloc, name)?;
        Ok(self.are_meant(number, found.as_slice()))
    }

    /// The region that a declaration is written in.
    fn region_of(&self, number: u32) -> Option<RegionId> {
        let other = self.linked(number)?;
        let regions = self.names.regions();
        if !regions.is_declaration(other) {
            return None;
        }
        Some(regions.region_of(other))
    }

    /// Whether a unit declares a number, and not something inside it.
    fn is_declared_by(&self, number: u32, home: u32) -> bool {
        match (self.region_of(number), self.inside_of(Some(home))) {
            (Some(region), Some(inside)) => region == inside,
            _ => false,
        }
    }

    /// The home of what a unit of the design declares, or of that unit. What stands in an architecture or a body can't be selected.
    fn written_home(&self, number: u32) -> Option<Home<'a>> {
        let home = self.tables.home(number)?;
        if home == number {
            return Some(Home {
                library: b"work",
                unit: None,
            });
        }
        if !self.is_declared_by(number, home) {
            return None;
        }
        Some(Home {
            library: b"work",
            unit: Some(self.name_of(home)),
        })
    }

    /// The home of what is no operator.
    fn plain_home(&self, number: u32) -> Option<Home<'a>> {
        if number < SHARED {
            return given_home(number);
        }
        self.written_home(number)
    }

    /// Whether a declaration can stand behind its unit. Ports and generics can in the architectures of their entity alone.
    fn can_be_selected(&self, number: u32) -> bool {
        match self.class_of(number) {
            Class::Port | Class::GenericConstant => {
                self.primary.is_some() && self.tables.home(number) == self.primary
            }
            _ => true,
        }
    }

    /// The home of an operator, or of a given function: that of the type that it belongs to.
    fn home_of_operator(&self, number: u32) -> Option<Home<'a>> {
        let owner = self.owner_of(number)?;
        self.plain_home(owner)
    }

    /// Where a declaration stands.
    fn home_of(&self, number: u32) -> Option<Home<'a>> {
        if number < SHARED || self.tables.home(number).is_some() {
            self.plain_home(number)
        } else {
            self.home_of_operator(number)
        }
    }

    /// Whether a declaration stands in the unit round the place.
    fn is_here(&self, number: u32) -> bool {
        match (self.tables.home(number), self.unit) {
            (Some(home), Some(unit)) => home == unit,
            _ => false,
        }
    }

    /// A literal of a type that stands in the unit round the place.
    fn value_of(&self, number: u32) -> Option<Spelling<'a>> {
        let declaration = self.declaration(number)?;
        if !matches!(declaration.class, Class::EnumerationLiteral) || !self.is_here(number) {
            return None;
        }
        let mark = declaration.mark?.number();
        let position = number.saturating_sub(mark).saturating_sub(1);
        Some(Spelling::Value { mark, position })
    }

    /// How a name is written that means something else alone, or nothing. One that can't be written otherwise stands alone all the same.
    fn hidden(&self, number: u32) -> Spelling<'a> {
        if let Some(value) = self.value_of(number) {
            return value;
        }
        if !self.can_be_selected(number) {
            return Spelling::Alone;
        }
        match self.home_of(number) {
            Some(home) => Spelling::Selected(home),
            None => Spelling::Alone,
        }
    }

    /// Notes that a library is named.
    fn note_library(&mut self, spelling: &Spelling<'a>) {
        if let Spelling::Selected(home) = spelling {
            if home.library == b"ieee".as_slice() {
                self.wants_ieee = true;
            }
        }
    }

    /// How the name of a declaration is written at the place.
    pub(crate) fn spell(&mut self, number: u32) -> Result<Spelling<'a>, AllocError> {
        let name = self.name_of(number);
        if !is_unit(self.class_of(number)) && self.is_visible(number, name)? {
            return Ok(Spelling::Alone);
        }
        let spelling = self.hidden(number);
        self.note_library(&spelling);
        Ok(spelling)
    }
}
