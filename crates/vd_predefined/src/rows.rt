//! What a line of a given package declares.

use crate::operators::Group;

/// The revisions in which a line stands.
#[derive(Clone, Copy, PartialEq, Eq, Debug)]
pub enum Revisions {
    Both,
    Only2019,
    Only1993,
}

/// Who declares an operator or a function: a type brings it with it, or the package declares it.
#[derive(Clone, Copy, PartialEq, Eq, Debug)]
pub enum Origin {
    Brought,
    Declared,
}

/// A line of a package, as `specs/Lines.antt` says.
#[derive(Clone, Copy)]
pub enum Line {
    Enumeration(&'static str, &'static [&'static str]),
    Integer(&'static str),
    Physical(&'static str, &'static [&'static str]),
    Subtype(&'static str, u32, u32),
    Array(&'static str, u32, u32),
    Operators(Origin, u32, Option<u32>, &'static [Group]),
    Function(Origin, &'static str, &'static str, u32, u32),
}

/// A line and the revisions in which it stands.
#[derive(Clone, Copy)]
pub struct Row(pub Revisions, pub Line);
