// The bench's commands on diagnostics: `diag`, `step`, `raw` and `store`.
#![tactic(auto)]

mod blocks;
mod stores;
mod walks;

use line_text::answers::Out;
use line_text::words::{Fault, Words};

// What the command of this name does with its words, or nothing, since it is none of these names.
pub fn answer(name: &[u8], words: Words, out: &mut Out) -> Option<Result<(), Fault>> {
    match name {
        b"diag" => Some(walks::diag(words, out)),
        b"step" => Some(walks::step(words, out)),
        b"raw" => Some(stores::raw(words, out)),
        b"store" => Some(stores::store(words, out)),
        _ => None,
    }
}
