// The station list for programs in other languages, lent as bytes.
#![tactic(auto)]

mod bytes;
pub mod stations;
