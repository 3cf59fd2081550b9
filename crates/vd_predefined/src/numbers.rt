//! The numbers of what is given.

/// The libraries and packages.
pub const WORK: u32 = 0;

pub const STD: u32 = 1;

pub const IEEE: u32 = 2;

pub const STANDARD: u32 = 3;

pub const STD_LOGIC_1164: u32 = 4;

/// The types and subtypes of `std.standard`.
pub const BOOLEAN: u32 = 5;

pub const BIT: u32 = 8;

pub const CHARACTER: u32 = 11;

pub const SEVERITY_LEVEL: u32 = 140;

pub const INTEGER: u32 = 145;

pub const TIME: u32 = 146;

pub const DELAY_LENGTH: u32 = 155;

pub const NATURAL: u32 = 156;

pub const POSITIVE: u32 = 157;

pub const STRING: u32 = 158;

pub const BIT_VECTOR: u32 = 159;

/// The types and subtypes of `ieee.std_logic_1164`.
pub const STD_ULOGIC: u32 = 160;

pub const STD_ULOGIC_VECTOR: u32 = 170;

pub const STD_LOGIC: u32 = 171;

pub const STD_LOGIC_VECTOR: u32 = 172;

pub const X01: u32 = 173;

pub const X01Z: u32 = 174;

pub const UX01: u32 = 175;

pub const UX01Z: u32 = 176;

/// The regions.
pub const REGION_OF_LIBRARIES: u32 = 0;

pub const REGION_OF_IEEE_NAME: u32 = 1;

pub const REGION_OF_WORK: u32 = 2;

pub const REGION_OF_STD: u32 = 3;

pub const REGION_OF_IEEE: u32 = 4;

pub const REGION_OF_STANDARD: u32 = 5;

pub const REGION_OF_1164: u32 = 6;
