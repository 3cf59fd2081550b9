//! The forms of nodes and the classes of declarations by their words.

use vd_declarations::{Class, DeclId, TypeId};
use vd_forms::Form;

const FORMS: [(&str, Form); 39] = [
    ("Identifier", Form::Identifier),
    ("Letter", Form::Letter),
    ("Quoted", Form::Quoted),
    ("Number", Form::Number),
    ("PhysicalLiteral", Form::PhysicalLiteral),
    ("Name", Form::Name),
    ("Selection", Form::Selection),
    ("Arguments", Form::Arguments),
    ("Qualification", Form::Qualification),
    ("Attribute", Form::Attribute),
    ("Ascending", Form::Ascending),
    ("Descending", Form::Descending),
    ("Aggregate", Form::Aggregate),
    ("Condition", Form::Condition),
    ("And", Form::And),
    ("Or", Form::Or),
    ("Nand", Form::Nand),
    ("Nor", Form::Nor),
    ("Xor", Form::Xor),
    ("Equal", Form::Equal),
    ("Unequal", Form::Unequal),
    ("Less", Form::Less),
    ("AtMost", Form::AtMost),
    ("MatchEqual", Form::MatchEqual),
    ("ShiftLeftLogical", Form::ShiftLeftLogical),
    ("RotateRight", Form::RotateRight),
    ("Negation", Form::Negation),
    ("Add", Form::Add),
    ("Subtract", Form::Subtract),
    ("Concatenate", Form::Concatenate),
    ("Multiply", Form::Multiply),
    ("Divide", Form::Divide),
    ("Modulo", Form::Modulo),
    ("Remainder", Form::Remainder),
    ("Power", Form::Power),
    ("Not", Form::Not),
    ("UseClause", Form::UseClause),
    ("SelectedName", Form::SelectedName),
    ("All", Form::All),
];

/// The form of a word.
pub fn form_of(word: &str) -> Option<Form> {
    for (own, form) in &FORMS {
        if *own == word {
            return Some(*form);
        }
    }
    None
}

const CLASSES: [(&str, Class); 9] = [
    ("constant", Class::Constant),
    ("variable", Class::Variable),
    ("signal", Class::Signal),
    ("parameter", Class::Parameter),
    ("integer_type", Class::IntegerType),
    ("record_element", Class::RecordElement),
    ("operator", Class::PredefinedOperator),
    ("function", Class::Function),
    ("literal", Class::EnumerationLiteral),
];

/// The class of a word. That of arrays names the type of their elements.
pub fn class_of(word: &str, element: u32) -> Option<Class> {
    for (own, class) in &CLASSES {
        if *own == word {
            return Some(*class);
        }
    }
    if word == "array" {
        Some(Class::ArrayType {
            index: TypeId::of(0),
            element: TypeId::of(element),
            element_mark: DeclId::of(element),
        })
    } else {
        None
    }
}
