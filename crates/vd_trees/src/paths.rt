//! Paths of signals and scopes in an elaborated design. (IEEE 1076, elaboration of a design hierarchy; path names.)

use std::marker::Model;
use vd_bytes::Text;

/// The value of an index: its position number, and the text that it is printed as.
#[derive(Debug, Drop)]
pub struct PathIndex {
    pub position: i64,
    pub text: Text,
}

/// A label, with its index where it is that of a `for` generate.
#[derive(Debug, Drop)]
pub struct Label {
    pub name: Text,
    pub index: Option<PathIndex>,
}

/// Labels in their order, the outermost first.
#[derive(Debug, Drop)]
pub struct Labels {
    items: Vec<Label>,
}

impl Model for Labels {
    ghost use Rattle.std.specs.Prelude.{List};
    ghost use Rattle.vd_trees.specs.declared.paths.Label.{Label};

    ghost Value = { List Label };

    ghost view = { λ a. a.items.items };
}

impl Labels {
    ghost use Rattle.std.specs.Prelude.{◌≡◌};

    /// These, in this order.
    pub fn of(items: Vec<Label>) -> Labels
        ensures { result ≡ items.items }
    {
        Labels { items }
    }

    /// Them, in order.
    pub fn as_slice(&self) -> &[Label]
        ensures { result.now ≡ self.now }
    {
        self.items.as_slice()
    }
}

/// A step from an instance to the next one inside it: the labels by which it is reached, those of the generates round it
/// first, and the entity and architecture that are reached. The first level of a path is the top, and has no label.
#[derive(Debug, Drop)]
pub struct Level {
    pub labels: Labels,
    pub entity: Text,
    pub architecture: Text,
}

/// Levels in their order, the top first.
#[derive(Debug, Drop)]
pub struct Levels {
    items: Vec<Level>,
}

impl Model for Levels {
    ghost use Rattle.std.specs.Prelude.{List};
    ghost use Rattle.vd_trees.specs.declared.paths.Level.{Level};

    ghost Value = { List Level };

    ghost view = { λ a. a.items.items };
}

impl Levels {
    ghost use Rattle.std.specs.Prelude.{◌≡◌};

    /// These, in this order.
    pub fn of(items: Vec<Level>) -> Levels
        ensures { result ≡ items.items }
    {
        Levels { items }
    }

    /// Them, in order.
    pub fn as_slice(&self) -> &[Level]
        ensures { result.now ≡ self.now }
    {
        self.items.as_slice()
    }
}

/// A step from an object into it: a field of a record, or an element of an array.
#[derive(Debug, Drop)]
pub enum PathStep {
    Field(Text),
    Index(PathIndex),
}

/// Steps into an object, the outermost first.
#[derive(Debug, Drop)]
pub struct PathSteps {
    items: Vec<PathStep>,
}

impl Model for PathSteps {
    ghost use Rattle.std.specs.Prelude.{List};
    ghost use Rattle.vd_trees.specs.declared.paths.PathStep.{PathStep};

    ghost Value = { List PathStep };

    ghost view = { λ a. a.items.items };
}

impl PathSteps {
    ghost use Rattle.std.specs.Prelude.{◌≡◌};

    /// These, in this order.
    pub fn of(items: Vec<PathStep>) -> PathSteps
        ensures { result ≡ items.items }
    {
        PathSteps { items }
    }

    /// Them, in order.
    pub fn as_slice(&self) -> &[PathStep]
        ensures { result.now ≡ self.now }
    {
        self.items.as_slice()
    }
}

/// The path of a scalar signal: where its object is declared, the labels of the generates round it there, the object, and the
/// steps into it.
#[derive(Debug, Drop)]
pub struct Path {
    pub levels: Levels,
    pub generates: Labels,
    pub object: Text,
    pub rest: PathSteps,
}

/// Where a process or a declaration stands: the levels and generate labels as a path has them, and an empty unit; in a
/// package no levels and labels, and the package's name as the unit.
#[derive(Debug, Drop)]
pub struct Scope {
    pub levels: Levels,
    pub generates: Labels,
    pub unit: Text,
}
