//! Laws of readings, each the contract of a function that does nothing.

ghost use Rattle.vd_readings.specs.Typed.{ReadingsAreTyped, TypedAreReadings, AgreeingReadAlike, WiderReadsMore};

/// The readings of a forest are the typed trees over it, and no others.
pub fn readings_are_typed()
    ensures sound { ReadingsAreTyped }
    ensures complete { TypedAreReadings }
{}

/// Two languages that agree on a forest read it alike, and one with more ways reads whatever the other does.
pub fn languages_compared()
    ensures agreeing { AgreeingReadAlike }
    ensures wider { WiderReadsMore }
{}
