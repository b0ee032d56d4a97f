// A stage for scenes of the order link: the two ends, and the line between them. A step is one call of an end, or what the line does to
// the telegram on it. `steps` are the steps alone, each promised by the definitions of the two ends; `scenes` plays them and prints
// what was called, what was answered and the telegram that was written, as bytes and as the lister names it. (What stands
// here once for each end goes by that end's answers, which have no case in common but their names.)
#![tactic(auto)]

mod answers;
pub mod scenes;
pub mod state;
pub mod steps;
pub mod telling;

pub use state::{Stage, Tally};
