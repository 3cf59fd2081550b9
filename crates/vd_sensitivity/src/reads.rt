//! What statements and declarations read: the longest static prefixes of the names of signals that occur as values, as prefixes of attributes and in
//! brackets, those of targets too. (IEEE 1076, wait statement; process statement.)
//!
//! They are found by one walk in the order of reading, each once.

use crate::facts::{Facts, number_marked};
use crate::orders::{Order, What, counts, is_value, order_of};
use crate::steps::{Key, Step, step_of};
use indexmap::IndexSet;
use std::alloc::{AllocError, Global};
use vd_bytes::Place;
use vd_declarations::DeclId;
use vd_forest::{Cursor, Opened};
use vd_forms::Form;
use vd_notes::Noted;
use vd_operations::{Role, role_of};

/// The longest static prefix of a name: the pieces of the name, and how many of them belong to it.
#[derive(Drop)]
pub(crate) struct Prefix<'a> {
    pub(crate) pieces: Cursor<'a, Noted>,
    pub(crate) count: u32,
    pub(crate) place: Place,
}

/// Trees that are still to be read.
#[derive(Drop)]
struct Left<'a> {
    trees: Cursor<'a, Noted>,
    what: What,
}

/// A signal or a part of one, as a name up to one of its pieces: the key of its longest static prefix, how many pieces that has, and whether it is
/// all of the name so far.
#[derive(Drop)]
struct Object {
    number: u32,
    key: Key,
    count: u32,
    is_whole: bool,
}

/// What is read of a name up to one of its pieces.
#[derive(Drop)]
struct Named {
    /// The signal that it names so far.
    object: Option<Object>,
    /// The signal that was named in front of an attribute that reads it.
    read: Option<Object>,
    /// How many pieces there were.
    count: u32,
    /// The type of what is named so far.
    mark: Option<u32>,
}

/// A walk over trees: those that are left, the next one last; those in the brackets of the name at hand, in their order; and what was found.
#[derive(Drop)]
struct Reading<'a, 'f, 'd> {
    alloc: Global,
    facts: &'f Facts<'d>,
    left: Vec<Left<'a>>,
    inside: Vec<Left<'a>>,
    seen: IndexSet<Key>,
    found: Vec<Prefix<'a>>,
}

/// What the first of some choices names.
fn first_named(choices: &Cursor<'_, Noted>) -> Option<DeclId> {
    let Some(first) = choices.open() else {
        return None;
    };
    first.form.node.declaration
}

/// The parameter that an argument of a call names.
fn parameter_named(argument: &Opened<'_, Noted>) -> Option<DeclId> {
    match argument.form.node.form {
        Form::Association => {
            let choices = argument.parts.parts();
            first_named(&choices)
        }
        _ => None,
    }
}

/// Whether an argument of a call names its parameter.
fn names_some(arguments: &Cursor<'_, Noted>) -> bool {
    let mut left = arguments.fork();
    while let Some(first) = left.open() {
        if parameter_named(&first).is_some() {
            return true;
        }
        left = first.next;
    }
    false
}

/// Empty slots for so many trees.
fn slots_for<'a>(
    alloc: Global,
    trees: &Cursor<'a, Noted>,
) -> Result<Vec<Option<Cursor<'a, Noted>>>, AllocError> {
    let mut slots: Vec<Option<Cursor<'a, Noted>>> = Vec::new(alloc);
    let mut left = trees.fork();
    while let Some(first) = left.open() {
        slots.push(None)?;
        left = first.next;
    }
    Ok(slots)
}

/// Puts a tree into a slot that is empty, or gives it back.
fn put<'a>(
    slots: &mut Vec<Option<Cursor<'a, Noted>>>,
    place: u32,
    tree: Cursor<'a, Noted>,
) -> Option<Cursor<'a, Noted>> {
    match slots.get_mut(place as usize) {
        Some(slot) if slot.is_none() => {
            *slot = Some(tree);
            None
        }
        _ => Some(tree),
    }
}

/// Puts trees behind those that are left, so that the first one of them comes next.
fn put_back<'a>(left: &mut Vec<Left<'a>>, inside: &[Left<'a>]) -> Result<(), AllocError> {
    let mut at = inside.len();
    while at > 0 {
        at -= 1;
        let item = &inside[at];
        left.push(Left {
            trees: item.trees.fork(),
            what: item.what,
        })?;
    }
    Ok(())
}

/// A value that is no part of an object.
fn left_behind(named: Named, node: &Noted) -> Named {
    let Named { read, count, .. } = named;
    Named {
        object: None,
        read,
        count: count.saturating_add(1),
        mark: number_marked(&node.node.mark),
    }
}

/// The first of two, or the second.
fn one_of(first: bool, a: Option<Object>, b: Option<Object>) -> Option<Object> {
    if first { a } else { b }
}

/// Whether a piece is the attribute `event`.
fn is_event(piece: &Opened<'_, Noted>) -> bool {
    piece.parts.text() == b"event".as_slice()
}

impl<'a, 'f, 'd> Reading<'a, 'f, 'd> {
    /// What the first piece of a name names, or a selected name of a declaration.
    fn begun(&self, node: &Noted, count: u32) -> Result<Named, AllocError> {
        let role = role_of(self.facts.declarations, node.node.declaration);
        let object = match (role, node.node.declaration) {
            (Role::Signal, Some(signal)) => Some(Object {
                number: signal.number(),
                key: Key::of(self.alloc, signal.number())?,
                count,
                is_whole: true,
            }),
            _ => None,
        };
        Ok(Named {
            object,
            read: None,
            count,
            mark: number_marked(&node.node.mark),
        })
    }

    /// Trees in brackets, to be read in their order.
    fn read_inside(&mut self, trees: Cursor<'a, Noted>, what: What) -> Result<(), AllocError> {
        self.inside.push(Left { trees, what })?;
        Ok(())
    }

    /// A record element of an object.
    fn field_of(&self, object: Object, position: u32, count: u32) -> Result<Object, AllocError> {
        let Object {
            number,
            key,
            count: before,
            is_whole,
        } = object;
        if !is_whole {
            return Ok(Object {
                number,
                key,
                count: before,
                is_whole,
            });
        }
        let mut key = key;
        key.add_field(position)?;
        Ok(Object {
            number,
            key,
            count,
            is_whole,
        })
    }

    /// A record element of what is named so far.
    fn select_element(&self, named: Named, node: &Noted) -> Result<Named, AllocError> {
        let Named {
            object,
            read,
            count,
            mark: _,
        } = named;
        let count = count.saturating_add(1);
        let object = match object {
            Some(object) => Some(self.field_of(object, node.node.position, count)?),
            None => None,
        };
        Ok(Named {
            object,
            read,
            count,
            mark: number_marked(&node.node.mark),
        })
    }

    /// A selected name: a record element, or a declaration.
    fn select(&mut self, named: Named, node: &Noted) -> Result<Named, AllocError> {
        match role_of(self.facts.declarations, node.node.declaration) {
            Role::Element => self.select_element(named, node),
            _ => {
                self.inside.clear();
                self.begun(node, named.count.saturating_add(1))
            }
        }
    }

    /// The part of an object that brackets stand for, behind a name of this type.
    fn part_of(
        &self,
        object: Object,
        piece: &Opened<'a, Noted>,
        mark: Option<u32>,
        count: u32,
    ) -> Result<Object, AllocError> {
        let Object {
            number,
            key,
            count: before,
            is_whole,
        } = object;
        let step = step_of(self.facts, &piece.form, &piece.parts, mark);
        if !is_whole || matches!(step, Step::Ends) {
            return Ok(Object {
                number,
                key,
                count: before,
                is_whole: false,
            });
        }
        let mut key = key;
        key.add_brackets(self.alloc, &piece.form, &piece.parts, mark)?;
        Ok(Object {
            number,
            key,
            count,
            is_whole,
        })
    }

    /// A step into the part of what is named so far that brackets stand for.
    fn step(&self, named: Named, piece: &Opened<'a, Noted>) -> Result<Named, AllocError> {
        let Named {
            object,
            read,
            count,
            mark,
        } = named;
        let count = count.saturating_add(1);
        let object = match object {
            Some(object) => Some(self.part_of(object, piece, mark, count)?),
            None => None,
        };
        Ok(Named {
            object,
            read,
            count,
            mark: number_marked(&piece.form.node.mark),
        })
    }

    /// Arguments of a call, in the order of the parameters.
    fn sort(&mut self, arguments: &Cursor<'a, Noted>) -> Result<(), AllocError> {
        let mut slots = slots_for(self.alloc, arguments)?;
        let mut others: Vec<Cursor<'a, Noted>> = Vec::new(self.alloc);
        let mut left = arguments.fork();
        let mut at: u32 = 0;
        while let Some(first) = left.open() {
            let place = match parameter_named(&first) {
                Some(parameter) => self.facts.places.place(parameter),
                None => at,
            };
            if let Some(tree) = put(&mut slots, place, left) {
                others.push(tree)?;
            }
            left = first.next;
            at = at.saturating_add(1);
        }
        self.read_slots(&slots)?;
        self.read_each(&others)
    }

    /// The trees in slots.
    fn read_slots(&mut self, slots: &[Option<Cursor<'a, Noted>>]) -> Result<(), AllocError> {
        for slot in slots {
            if let Some(tree) = slot {
                self.read_inside(tree.fork(), What::First)?;
            }
        }
        Ok(())
    }

    /// Some trees.
    fn read_each(&mut self, trees: &[Cursor<'a, Noted>]) -> Result<(), AllocError> {
        for tree in trees {
            self.read_inside(tree.fork(), What::First)?;
        }
        Ok(())
    }

    /// The arguments of a call.
    fn read_arguments(&mut self, arguments: &Cursor<'a, Noted>) -> Result<(), AllocError> {
        if names_some(arguments) {
            self.sort(arguments)
        } else {
            self.read_inside(arguments.fork(), What::All)
        }
    }

    /// Brackets: of a call, a conversion, an element or a slice.
    fn enter(&mut self, named: Named, piece: &Opened<'a, Noted>) -> Result<Named, AllocError> {
        match role_of(self.facts.declarations, piece.form.node.declaration) {
            Role::Function | Role::Mark => {
                self.read_arguments(&piece.parts)?;
                Ok(left_behind(named, &piece.form))
            }
            _ => {
                self.read_inside(piece.parts.fork(), What::First)?;
                self.step(named, piece)
            }
        }
    }

    /// An attribute reads the signal in front of it. A port of mode `out` counts under `event` alone.
    fn attribute(&self, named: Named, piece: &Opened<'a, Noted>) -> Named {
        let Named {
            object,
            read,
            count,
            mark: _,
        } = named;
        let is_read = match &object {
            Some(object) => counts(is_event(piece), self.facts.is_out(object.number)),
            None => false,
        };
        let read = one_of(is_read, object, read);
        Named {
            object: None,
            read,
            count: count.saturating_add(1),
            mark: number_marked(&piece.form.node.mark),
        }
    }

    /// One more piece of a name.
    fn go_on(&mut self, named: Named, piece: &Opened<'a, Noted>) -> Result<Named, AllocError> {
        match piece.form.node.form {
            Form::Selection => self.select(named, &piece.form),
            Form::Arguments => self.enter(named, piece),
            Form::Attribute | Form::RangeAttribute => Ok(self.attribute(named, piece)),
            Form::Qualification => {
                self.read_inside(piece.parts.fork(), What::All)?;
                Ok(left_behind(named, &piece.form))
            }
            _ => Ok(left_behind(named, &piece.form)),
        }
    }

    /// A name with all its pieces.
    fn whole(&mut self, pieces: &Cursor<'a, Noted>) -> Result<Option<Named>, AllocError> {
        let Some(first) = pieces.open() else {
            return Ok(None);
        };
        let mut named = self.begun(&first.form, 1)?;
        let mut left = first.next;
        while let Some(piece) = left.open() {
            named = self.go_on(named, &piece)?;
            left = piece.next;
        }
        Ok(Some(named))
    }

    /// A prefix is found, where it wasn't found before.
    fn find(&mut self, name: &Opened<'a, Noted>, object: Object) -> Result<(), AllocError> {
        let count = object.count;
        if self.seen.insert(object.key)? {
            self.found.push(Prefix {
                pieces: name.parts.fork(),
                count,
                place: name.place,
            })?;
        }
        Ok(())
    }

    /// The signal that a name names is found, where the name is a value.
    fn find_value(
        &mut self,
        name: &Opened<'a, Noted>,
        object: Object,
        what: What,
    ) -> Result<(), AllocError> {
        if is_value(what) {
            self.find(name, object)
        } else {
            Ok(())
        }
    }

    /// What was found in the brackets of a name is read next.
    fn go_inside(&mut self) -> Result<(), AllocError> {
        put_back(&mut self.left, &self.inside)?;
        self.inside.clear();
        Ok(())
    }

    /// A name, as a value or as a target.
    fn name(&mut self, name: &Opened<'a, Noted>, what: What) -> Result<(), AllocError> {
        let Some(named) = self.whole(&name.parts)? else {
            return Ok(());
        };
        let Named { object, read, .. } = named;
        if let Some(object) = read {
            self.find(name, object)?;
        }
        if let Some(object) = object {
            self.find_value(name, object, what)?;
        }
        self.go_inside()
    }

    /// These trees are read before all others that are left.
    fn wait(&mut self, trees: Cursor<'a, Noted>, what: What) -> Result<(), AllocError> {
        self.left.push(Left { trees, what })?;
        Ok(())
    }

    /// The parts of an assignment that selects its values: the selector, the target, and what is behind that.
    fn selection(&mut self, parts: &Cursor<'a, Noted>) -> Result<(), AllocError> {
        self.wait(parts.skip(3), What::All)?;
        self.wait(parts.skip(2), What::Inside)?;
        self.wait(parts.fork(), What::First)
    }

    /// A tree, as a value, a statement or a declaration.
    fn tree(&mut self, tree: &Opened<'a, Noted>) -> Result<(), AllocError> {
        match order_of(tree.form.node.form) {
            Order::Name => self.name(tree, What::First),
            Order::Assignment => {
                self.wait(tree.parts.next(), What::All)?;
                self.wait(tree.parts.fork(), What::Inside)
            }
            Order::Selection => self.selection(&tree.parts),
            Order::Range => self.wait(tree.parts.next(), What::All),
            Order::Parts => self.wait(tree.parts.fork(), What::All),
        }
    }

    /// A target.
    fn target(&mut self, tree: &Opened<'a, Noted>) -> Result<(), AllocError> {
        match tree.form.node.form {
            Form::Name => self.name(tree, What::Inside),
            _ => Ok(()),
        }
    }

    /// The first of some trees; what is behind it is left.
    fn read(&mut self, next: &Left<'a>) -> Result<(), AllocError> {
        let Some(first) = next.trees.open() else {
            return Ok(());
        };
        match next.what {
            What::All => {
                self.wait(first.next.fork(), What::All)?;
                self.tree(&first)
            }
            What::First => self.tree(&first),
            What::Inside => self.target(&first),
        }
    }
}

/// A walk that has nothing to read yet.
fn nothing_read<'a, 'f, 'd>(alloc: Global, facts: &'f Facts<'d>) -> Reading<'a, 'f, 'd> {
    Reading {
        alloc,
        facts,
        left: Vec::new(alloc),
        inside: Vec::new(alloc),
        seen: IndexSet::new(alloc),
        found: Vec::new(alloc),
    }
}

/// What is left to be read.
fn read_all<'a>(reading: &mut Reading<'a, '_, '_>) -> Result<(), AllocError> {
    // No text has so many nodes.
    for _ in 0..u64::MAX {
        let Some(next) = reading.left.pop() else {
            break;
        };
        reading.read(&next)?;
    }
    Ok(())
}

/// What some trees read, in the order of first reading.
pub(crate) fn read_in<'a>(
    alloc: Global,
    facts: &Facts<'_>,
    trees: &Cursor<'a, Noted>,
) -> Result<Vec<Prefix<'a>>, AllocError> {
    let mut reading = nothing_read(alloc, facts);
    reading.wait(trees.fork(), What::All)?;
    read_all(&mut reading)?;
    Ok(reading.found)
}

/// What an assignment that selects its values reads, which has these parts, in the order of first reading.
pub(crate) fn read_in_selection<'a>(
    alloc: Global,
    facts: &Facts<'_>,
    parts: &Cursor<'a, Noted>,
) -> Result<Vec<Prefix<'a>>, AllocError> {
    let mut reading = nothing_read(alloc, facts);
    reading.selection(parts)?;
    read_all(&mut reading)?;
    Ok(reading.found)
}
