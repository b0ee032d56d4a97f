// The lister's whole text, from any input into a lent buffer: `list` makes the listing, `output` all that the program prints, `list_in` and
// `output_in` the same in either mode of reading. The text is that of the input's stream, whose rule stands in crate `telegram`; its lines are
// those of crate `listing_lines`.
#![tactic(auto)]

mod items;
pub mod whole;

pub use whole::{INPUT_LIMIT, LISTING_ROOM, list, list_in, output, output_in, text};
