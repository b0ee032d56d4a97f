// A strict reader beside the default one, for who hunts couplers that send sloppy SD2 telegrams (request 2026-05).
#![tactic(auto)]

pub mod strict;

pub use strict::{
    DeserializedIn, Mode, Sloppiness, deserialize_in, deserialize_strict, strict_start,
};
