//! Attributes.

ghost use Rattle.std.specs.Prelude.{◌≡◌};
ghost use Rattle.vd_visible.specs.Kinds.{attribute_named as attribute};

/// What the attribute of a name gives. (IEEE 1076, predefined attributes)
#[derive(Clone, Copy, PartialEq, Eq, Debug)]
pub enum Attribute {
    /// `'left`, `'right`, `'high`, `'low`.
    Bound,
    Length,
    /// `'pos`.
    Position,
    /// `'val`.
    ValueAt,
    /// `'succ`, `'pred`.
    Neighbour,
    Image,
    Event,
    ReverseRange,
    Other,
}

/// The attribute of a name.
pub fn attribute_named(name: &[u8]) -> Attribute
    ensures { result ≡ attribute name.now }
{
    if name == b"left".as_slice() || name == b"right".as_slice() {
        Attribute::Bound
    } else if name == b"high".as_slice() || name == b"low".as_slice() {
        Attribute::Bound
    } else if name == b"length".as_slice() {
        Attribute::Length
    } else if name == b"pos".as_slice() {
        Attribute::Position
    } else if name == b"val".as_slice() {
        Attribute::ValueAt
    } else if name == b"succ".as_slice() || name == b"pred".as_slice() {
        Attribute::Neighbour
    } else if name == b"image".as_slice() {
        Attribute::Image
    } else if name == b"event".as_slice() {
        Attribute::Event
    } else if name == b"reverse_range".as_slice() {
        Attribute::ReverseRange
    } else {
        Attribute::Other
    }
}
