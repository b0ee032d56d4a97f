// The bench's commands on station lists: `ring`, which tells the whole list, and `ready`, which tells only whether it is ready for the ring.
#![tactic(auto)]

mod ops;
mod stations;

use line_text::answers::Out;
use line_text::words::{Fault, Words};

// What the command of this name does with its words, or nothing, since it is none of these names.
pub fn answer(name: &[u8], words: Words, out: &mut Out) -> Option<Result<(), Fault>> {
    match name {
        b"ring" => Some(stations::play(words, stations::put_state, out)),
        b"ready" => Some(stations::play(words, stations::put_ready, out)),
        _ => None,
    }
}
