//! The words of a step that enters a declaration.

use crate::world::World;
use std::alloc::{AllocError, Global};
use vd_bytes::{Place, Text};
use vd_declarations::{Class, DeclId, Declaration, Declarations, Made, RegionId, TypeId};
use vd_regions::EnterEnd;

/// What stands behind a key, in a word `key=value`.
pub fn value_of<'a>(words: &[&'a str], key: &str) -> Option<&'a str> {
    for word in words {
        if let Some((own, value)) = word.split_once('=') {
            if own == key {
                return Some(value);
            }
        }
    }
    None
}

/// The number of the declaration that `key=LABEL` names.
fn number_of(world: &World, words: &[&str], key: &str) -> Option<u32> {
    let label = value_of(words, key)?;
    let id = world.id(label)?;
    Some(id.number())
}

/// The class that a word names. `of` is the declaration that it names besides.
pub fn class_of(world: &World, word: &str, words: &[&str]) -> Option<Class> {
    let of = number_of(world, words, "of").unwrap_or(0);
    match plain_class(word) {
        Some(class) => Some(class),
        None => naming_class(word, of),
    }
}

/// The class of a word that names no declaration besides.
pub fn plain_class(word: &str) -> Option<Class> {
    for (own, class) in &PLAIN_CLASSES {
        if *own == word {
            return Some(*class);
        }
    }
    None
}

/// The words of classes that name no declaration.
const PLAIN_CLASSES: [(&str, Class); 20] = [
    ("library", Class::Library),
    ("entity", Class::Entity),
    ("architecture", Class::Architecture),
    ("package", Class::Package),
    ("uninstantiated_package", Class::UninstantiatedPackage),
    ("package_instance", Class::PackageInstance),
    ("constant", Class::Constant),
    ("signal", Class::Signal),
    ("port", Class::Port),
    ("parameter", Class::Parameter),
    ("label", Class::Label),
    ("record", Class::RecordType),
    ("element", Class::RecordElement),
    ("enumeration", Class::EnumerationType),
    ("literal", Class::EnumerationLiteral),
    ("function", Class::Function),
    ("uninstantiated_function", Class::UninstantiatedFunction),
    ("generic_function", Class::GenericFunction),
    ("instance_function", Class::InstanceFunction),
    ("operator", Class::PredefinedOperator),
];

/// The class of what names a declaration besides.
fn naming_class(word: &str, of: u32) -> Option<Class> {
    let id = DeclId::of(of);
    match word {
        "library_name" => Some(Class::LibraryName { library: id }),
        "array" => Some(Class::ArrayType {
            index: TypeId::of(0),
            element: TypeId::of(of),
            element_mark: id,
        }),
        "subtype" => Some(Class::Subtype { mark: id }),
        "actual_function" => Some(Class::ActualFunction { actual: id }),
        _ => None,
    }
}

/// The parameters that `params=a,b` names.
fn parameters(alloc: Global, world: &World, words: &[&str]) -> Result<Vec<DeclId>, AllocError> {
    let mut ids = Vec::new(alloc);
    if let Some(value) = value_of(words, "params") {
        for label in value.split(',') {
            if let Some(id) = world.id(label) {
                ids.push(id)?;
            }
        }
    }
    Ok(ids)
}

/// The type that `mark=LABEL` or `number=N` names.
fn mark_of(world: &World, words: &[&str]) -> Option<TypeId> {
    let number = match value_of(words, "number") {
        Some(text) => text.parse::<u32>().ok()?,
        None => number_of(world, words, "mark")?,
    };
    Some(TypeId::of(number))
}

/// The region that `inside=LABEL` names.
fn inside_of(world: &World, words: &[&str]) -> Option<RegionId> {
    world.region(value_of(words, "inside")?)
}

/// Enters a declaration of a class under a name, with what the words say of it.
pub fn enter_with(
    alloc: Global,
    world: &mut World,
    region: RegionId,
    class: Class,
    name: &str,
    words: &[&str],
) -> Result<DeclId, EnterEnd> {
    let mark = mark_of(world, words);
    let inside = inside_of(world, words);
    let parameters = parameters(alloc, world, words)?;
    let own = Text::from_slice(alloc, name.as_bytes())?;
    let wanted = Text::from_slice(alloc, name.as_bytes())?;
    world.regions.enter(
        region,
        name,
        Declaration {
            class,
            name: own,
            mark,
            parameters: Declarations::of(parameters),
            generics: Declarations::of(Vec::new(alloc)),
            inside,
            place: Place {
                file: 0,
                line: 1,
                column: 1,
            },
            made: Made::Written,
            wanted,
        },
    )
}
