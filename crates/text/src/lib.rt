// Text in lent bytes: a byte, a row of bytes, its hexadecimal digits or a decimal number is laid down at a place, and a decimal number is read at
// one. Each `put_` call answers the place behind what it laid down, so that calls follow one another.
// The buffer and the place go separately: a caller is lent the one and keeps the other.
// No `Display`: what is promised is each byte of a lent buffer, and there is no heap to format into.
#![tactic(auto)]

pub mod decimal;
pub mod hex;
pub mod place;

pub use decimal::{Number, decimal_len, get_decimal, put_decimal};
pub use hex::put_hex;
pub use place::{begins_at, byte_is_at, put_byte, put_bytes};
