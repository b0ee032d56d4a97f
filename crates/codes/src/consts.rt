// PROFIBUS constants, as in profirust's consts.rs. The definitions name them in specs/Delimiters.antt.

// Start delimiter 1: no content.
pub const SD1: u8 = 0x10;
// Start delimiter 2: content of a stated length.
pub const SD2: u8 = 0x68;
// Start delimiter 3: 8 bytes of content.
pub const SD3: u8 = 0xA2;
// Start delimiter 4: token.
pub const SD4: u8 = 0xDC;
// End delimiter.
pub const ED: u8 = 0x16;
// Short confirmation.
pub const SC: u8 = 0xE5;
