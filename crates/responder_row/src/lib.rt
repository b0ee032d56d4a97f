// What a responder remembers of one initiator, and what a heard request and an answer do to that.
#![tactic(auto)]

pub mod head;
pub mod row;

pub use head::RowHead;
pub use row::{Row, RowAction, RowState};
