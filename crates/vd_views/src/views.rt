//! The views of a design, and the subtypes of the elements of its records.

ghost use Rattle.std.specs.Prelude.{◌≡◌};
ghost use Rattle.vd_views.specs.Modes.{mode_of as mode_in_word};

use std::alloc::{AllocError, Global};
use vd_declarations::{Class, DeclId, Declaration};
use vd_forest::{Cursor, Opened};
use vd_forms::Form;
use vd_notes::{first_number, number_at};
use vd_resolved::Resolved;

/// The mode of a port.
#[derive(Clone, Copy, PartialEq, Eq, Debug)]
pub(crate) enum Mode {
    In,
    Out,
    InOut,
}

/// What an element has in a view: a mode, or a view, perhaps its converse.
#[derive(Clone, Copy, PartialEq, Eq, Debug)]
pub(crate) enum ElementMode {
    Plain(Mode),
    ByView { view: u32, is_converse: bool },
}

/// An element of a view, and how many elements with a mode of their own stand in front of it, with those of views inside the view.
#[derive(Clone, Copy)]
pub(crate) struct Element {
    pub(crate) field: DeclId,
    pub(crate) mode: ElementMode,
    pub(crate) first: u32,
}

/// A view: what each element of its record has, in the order of the record, and how many elements with a mode of their own that makes.
#[derive(Drop)]
struct View {
    elements: Vec<Element>,
    count: u32,
}

/// The views that the walk has come by, and the subtypes of the elements of records, by their numbers.
#[derive(Drop)]
pub(crate) struct Views<'a, 'd> {
    declarations: &'d [Declaration],
    views: Vec<Option<View>>,
    subtypes: Vec<Option<Cursor<'a, Resolved>>>,
    /// What the elements have in the view at hand.
    modes: Vec<Option<ElementMode>>,
}

/// The mode that a word is.
fn mode_of(form: Form) -> Option<Mode>
    ensures { result ≡ mode_in_word form }
{
    match form {
        Form::In => Some(Mode::In),
        Form::Out => Some(Mode::Out),
        Form::InOut => Some(Mode::InOut),
        _ => None,
    }
}

/// Whether the first of some trees is there.
fn is_there(trees: &Cursor<'_, Resolved>) -> bool {
    match trees.form() {
        Some(first) => !matches!(first.form, Form::Absent),
        None => false,
    }
}

/// The view that is named in front of some trees, and its converse where these begin with the attribute.
pub(crate) fn view_named(trees: &Cursor<'_, Resolved>) -> Option<ElementMode> {
    let view = first_number(trees)?;
    Some(ElementMode::ByView {
        view,
        is_converse: is_there(&trees.skip(1)),
    })
}

/// The mode or view that the first of some trees is.
fn element_mode(trees: &Cursor<'_, Resolved>) -> Option<ElementMode> {
    let first = trees.open()?;
    match first.form.form {
        Form::ViewMode => view_named(&first.parts),
        form => {
            let mode = mode_of(form)?;
            Some(ElementMode::Plain(mode))
        }
    }
}

/// No view, of so many declarations.
fn no_views(alloc: Global, count: usize) -> Result<Vec<Option<View>>, AllocError> {
    let mut views: Vec<Option<View>> = Vec::with_capacity(alloc, count)?;
    for _ in 0..count {
        views.push(None)?;
    }
    Ok(views)
}

/// No subtype, of so many declarations.
fn no_subtypes<'a>(
    alloc: Global,
    count: usize,
) -> Result<Vec<Option<Cursor<'a, Resolved>>>, AllocError> {
    let mut subtypes: Vec<Option<Cursor<'a, Resolved>>> = Vec::with_capacity(alloc, count)?;
    for _ in 0..count {
        subtypes.push(None)?;
    }
    Ok(subtypes)
}

impl<'a, 'd> Views<'a, 'd> {
    /// The walk has come by nothing.
    pub(crate) fn of(
        alloc: Global,
        declarations: &'d [Declaration],
    ) -> Result<Views<'a, 'd>, AllocError> {
        let views = no_views(alloc, declarations.len())?;
        let subtypes = no_subtypes(alloc, declarations.len())?;
        let modes = vec![in alloc; None; declarations.len()]?;
        Ok(Views {
            declarations,
            views,
            subtypes,
            modes,
        })
    }

    /// What a view is.
    fn view(&self, number: u32) -> Option<&View> {
        match self.views.get(number as usize) {
            Some(Some(view)) => Some(view),
            _ => None,
        }
    }

    /// How many elements with a mode of their own a view has.
    pub(crate) fn count(&self, view: u32) -> Option<u32> {
        match self.view(view) {
            Some(view) => Some(view.count),
            None => None,
        }
    }

    /// The element at a place of a view, from 0.
    pub(crate) fn element(&self, view: u32, place: u32) -> Option<Element> {
        match self.view(view) {
            Some(view) => view.elements.get(place as usize).copied(),
            None => None,
        }
    }

    /// The declaration of an element of a record.
    pub(crate) fn field(&self, number: DeclId) -> Option<&'d Declaration> {
        self.declarations.get(number.number() as usize)
    }

    /// The tree of the subtype of an element of a record.
    pub(crate) fn subtype(&self, number: DeclId) -> Option<Opened<'a, Resolved>> {
        match self.subtypes.get(number.number() as usize) {
            Some(Some(subtype)) => subtype.open(),
            _ => None,
        }
    }

    /// Elements with these names have this subtype.
    fn put_subtype(&mut self, names: &Cursor<'a, Resolved>, subtype: &Cursor<'a, Resolved>) {
        let mut rest = names.fork();
        while let Some(name) = rest.open() {
            if let Some(number) = name.form.declaration {
                let place = number.number() as usize;
                if place < self.subtypes.len() {
                    self.subtypes[place] = Some(subtype.fork());
                }
            }
            rest = name.next;
        }
    }

    /// The walk comes by elements of a record.
    pub(crate) fn note_elements(&mut self, node: &Opened<'a, Resolved>) {
        self.put_subtype(&node.parts.parts(), &node.parts.skip(1));
    }

    /// Elements with these names have this mode in the view at hand.
    fn put_mode(&mut self, names: &Cursor<'a, Resolved>, mode: ElementMode) {
        let mut rest = names.fork();
        while let Some(name) = rest.open() {
            if let Some(number) = name.form.declaration {
                let place = number.number() as usize;
                if place < self.modes.len() {
                    self.modes[place] = Some(mode);
                }
            }
            rest = name.next;
        }
    }

    /// The elements of the view at hand have their modes.
    fn put_modes(&mut self, elements: &Cursor<'a, Resolved>) {
        let mut rest = elements.fork();
        while let Some(element) = rest.open() {
            if let Some(mode) = element_mode(&element.parts.skip(1)) {
                self.put_mode(&element.parts.parts(), mode);
            }
            rest = element.next;
        }
    }

    /// What an element has in the view at hand, which is asked once.
    fn take_mode(&mut self, field: DeclId) -> Option<ElementMode> {
        let place = field.number() as usize;
        if place >= self.modes.len() {
            return None;
        }
        let mode = self.modes[place];
        self.modes[place] = None;
        mode
    }

    /// How many elements with a mode of their own an element makes.
    fn count_in(&self, mode: ElementMode) -> Option<u32> {
        match mode {
            ElementMode::Plain(_) => Some(1),
            ElementMode::ByView { view, .. } => self.count(view),
        }
    }

    /// What an element has in the view at hand, and how many elements that makes, where all of it is known.
    fn taken(&mut self, field: DeclId) -> Option<(ElementMode, u32)> {
        let mode = self.take_mode(field)?;
        let count = self.count_in(mode)?;
        if self.subtype(field).is_none() {
            return None;
        }
        Some((mode, count))
    }

    /// The view at hand, of a record with these elements. There is none where it doesn't say what each of them has.
    fn made(&mut self, alloc: Global, fields: &[DeclId]) -> Result<Option<View>, AllocError> {
        let mut elements: Vec<Element> = Vec::with_capacity(alloc, fields.len())?;
        let mut first: u32 = 0;
        for field in fields {
            let Some((mode, count)) = self.taken(*field) else {
                return Ok(None);
            };
            elements.push(Element {
                field: *field,
                mode,
                first,
            })?;
            first = first.saturating_add(count);
        }
        Ok(Some(View {
            elements,
            count: first,
        }))
    }

    /// The elements of the record type that a mark names.
    fn fields(&self, mark: Option<u32>) -> &'d [DeclId] {
        let Some(mark) = mark else {
            return &[];
        };
        let Some(declared) = self.declarations.get(mark as usize) else {
            return &[];
        };
        match (declared.class, declared.mark) {
            (Class::Subtype { .. }, Some(of)) => self.fields_of(of.number()),
            _ => declared.parameters.as_slice(),
        }
    }

    /// The elements of a record type.
    fn fields_of(&self, number: u32) -> &'d [DeclId] {
        match self.declarations.get(number as usize) {
            Some(declaration) => declaration.parameters.as_slice(),
            None => &[],
        }
    }

    /// The walk comes by a view.
    pub(crate) fn note_view(
        &mut self,
        alloc: Global,
        node: &Opened<'a, Resolved>,
    ) -> Result<(), AllocError> {
        let Some(number) = number_at(node) else {
            return Ok(());
        };
        let fields = self.fields(first_number(&node.parts.skip(1)));
        self.put_modes(&node.parts.skip(2).parts());
        let view = self.made(alloc, fields)?;
        let place = number as usize;
        if place < self.views.len() {
            self.views[place] = view;
        }
        Ok(())
    }
}
