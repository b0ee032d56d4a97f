// A line of the lister's text, or the one that ends it: what it says, and its bytes put into a lent buffer. What the lines are of, the crate
// `listing` says.
#![tactic(auto)]

pub mod line;

pub use line::{End, Item, Kind, Line, put_item};
