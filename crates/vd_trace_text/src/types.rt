//! The types of scalar signals, as printing sees them.

ghost use Rattle.std.specs.Prelude.{◌≡◌, IfOk};
ghost use Rattle.vd_trees.specs.TraceExamples.{std_ulogic as std_ulogic_type};
ghost use Rattle.vd_trace_text.specs.Types.{texts_behind};

use std::alloc::{AllocError, Global};
use std::marker::Model;
use vd_bytes::Text;

/// A kind of scalar types, an enumeration with the texts of its literals.
#[derive(Debug, Drop)]
pub(crate) enum Kind {
    Integers,
    Times,
    Enumeration(Vec<Text>),
}

/// The type of a scalar signal, as printing its values needs it.
#[derive(Debug, Drop)]
pub struct TypeText {
    pub(crate) kind: Kind,
}

impl Model for TypeText {
    ghost use Rattle.vd_trees.specs.ValueTexts.{ScalarType};
    ghost use Rattle.vd_trace_text.specs.Types.{type_of};

    ghost Value = { ScalarType };

    ghost view = { λ a. type_of a.kind };
}

impl TypeText {
    ghost use Rattle.vd_trees.specs.ValueTexts.{integers, times, enumeration};

    /// An integer type.
    pub fn integers() -> TypeText
        ensures { result ≡ integers }
    {
        TypeText {
            kind: Kind::Integers,
        }
    }

    /// TIME, in femtoseconds.
    pub fn times() -> TypeText
        ensures { result ≡ times }
    {
        TypeText { kind: Kind::Times }
    }

    /// An enumeration of literals with these texts, those of character literals with their apostrophes.
    pub fn enumeration(literals: Vec<Text>) -> TypeText
        ensures { result ≡ enumeration literals.items }
    {
        TypeText {
            kind: Kind::Enumeration(literals),
        }
    }

    /// The type `std_ulogic`.
    pub fn std_ulogic(alloc: Global) -> Result<TypeText, AllocError>
        ensures { IfOk result (λ t. t ≡ std_ulogic_type) }
    {
        let literals = copied(
            alloc,
            &[
                "'U'", "'X'", "'0'", "'1'", "'Z'", "'W'", "'L'", "'H'", "'-'",
            ],
        )?;
        Ok(TypeText::enumeration(literals))
    }
}

// Texts of their own with these bytes.
fn copied(alloc: Global, texts: &[&str]) -> Result<Vec<Text>, AllocError>
    ensures { IfOk result (λ copies. copies.items ≡ texts_behind texts.now) }
{
    let mut copies = Vec::new(alloc);
    for text in texts {
        copies.push(Text::from_slice(alloc, text.as_bytes())?)?;
    }
    Ok(copies)
}
