//! Attributes by their names. (IEEE 1076, predefined attributes.)

ghost use Rattle.std.specs.Prelude.{◌≡◌, drop};
ghost use Rattle.vd_meaning.specs.Names.{attribute_in, attribute_named as attribute_meant, attributes};
ghost use Rattle.vd_static_parts.specs.Attributes.{read_attribute};

use vd_operators::Side;
use vd_static_values::TypeAttribute;

/// What an attribute is of a name.
#[derive(Clone, Copy, PartialEq, Eq, Debug)]
pub enum NameAttribute {
    /// 'left, 'right, 'high or 'low.
    BoundAt(Side),
    Length,
    /// 'range, or 'reverse_range where it goes backwards.
    Range(bool),
    Event,
    /// One of a type, with an argument.
    OfType(TypeAttribute),
    NoAttribute,
}

/// The attributes of types.
fn type_attribute(name: &[u8]) -> NameAttribute
    ensures { read_attribute result ≡ attribute_in (drop 8 attributes) name.now }
{
    if b"pos".as_slice() == name {
        NameAttribute::OfType(TypeAttribute::Position)
    } else if b"val".as_slice() == name {
        NameAttribute::OfType(TypeAttribute::Value)
    } else if b"succ".as_slice() == name {
        NameAttribute::OfType(TypeAttribute::Successor)
    } else if b"pred".as_slice() == name {
        NameAttribute::OfType(TypeAttribute::Predecessor)
    } else if b"image".as_slice() == name {
        NameAttribute::OfType(TypeAttribute::Image)
    } else {
        NameAttribute::NoAttribute
    }
}

/// The attribute with a name.
pub fn attribute_named(name: &[u8]) -> NameAttribute
    ensures { read_attribute result ≡ attribute_meant name.now }
{
    if b"left".as_slice() == name {
        NameAttribute::BoundAt(Side::LeftSide)
    } else if b"right".as_slice() == name {
        NameAttribute::BoundAt(Side::RightSide)
    } else if b"high".as_slice() == name {
        NameAttribute::BoundAt(Side::HighSide)
    } else if b"low".as_slice() == name {
        NameAttribute::BoundAt(Side::LowSide)
    } else if b"length".as_slice() == name {
        NameAttribute::Length
    } else if b"range".as_slice() == name {
        NameAttribute::Range(false)
    } else if b"reverse_range".as_slice() == name {
        NameAttribute::Range(true)
    } else if b"event".as_slice() == name {
        NameAttribute::Event
    } else {
        type_attribute(name)
    }
}
