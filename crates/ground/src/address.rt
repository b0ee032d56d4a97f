// Station address and service access point: a byte each, and neither compiles where the other is wanted.

// A station's address on the segment.
#[derive(Clone, Copy, Debug, PartialEq, Eq)]
pub struct Address(pub u8);

// A service access point of a station.
#[derive(Clone, Copy, Debug, PartialEq, Eq)]
pub struct Sap(pub u8);
