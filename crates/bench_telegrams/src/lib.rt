// The bench's commands on telegrams: `read`, `sread`, `about`, `fc` and `cycle` in `reading`, those that write in `writing`.
#![tactic(auto)]

mod reading;
mod writing;

use line_text::answers::Out;
use line_text::words::{Fault, Words};
use telegram_strict::Mode;

// What the command of this name does with its words, or nothing, since it is none of these names.
pub fn answer(name: &[u8], words: Words, out: &mut Out) -> Option<Result<(), Fault>> {
    match name {
        b"read" => Some(reading::read(Mode::Default, words, out)),
        b"about" => Some(reading::about(words, out)),
        b"fc" => Some(reading::fc(words, out)),
        b"cycle" => Some(reading::cycle(words, out)),
        b"write" => Some(writing::write(words, out)),
        b"wtoken" => Some(writing::wtoken(words, out)),
        b"wack" => Some(writing::wack(words, out)),
        b"wstatus" => Some(writing::wstatus(words, out)),
        b"wstate" => Some(writing::wstate(words, out)),
        b"sread" => Some(reading::read(Mode::Strict, words, out)),
        _ => None,
    }
}
