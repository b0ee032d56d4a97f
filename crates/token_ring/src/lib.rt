// The station list of a PROFIBUS master, by value: profirust's src/fdl/token_ring.rs.
#![tactic(auto)]

mod flags;
pub mod las_state;
pub mod ring;

pub use las_state::LasState;
pub use ring::TokenRing;
