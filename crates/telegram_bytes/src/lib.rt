// The bytes of a data telegram, written into a buffer that the caller lends, by a header whose function code is a byte.
#![tactic(auto)]

pub mod coded;
mod parts;
mod put;
pub mod serialized;

pub use coded::CodedHeader;
pub use serialized::serialize;
