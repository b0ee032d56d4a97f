// Reading in strict mode for programs in other languages. Promise: `koy_read_strict` in specs/Calls.antt. It is a crate, and so an object, of its
// own: beside `koy_read` in one object it would be a second caller of the reader, which then would not be compiled into `koy_read`.
#![tactic(auto)]

ghost use Rattle.std.specs.Prelude.{◌≡◌};
ghost use Rattle.exports_strict.specs.Calls.{koy_read_strict};

use exports_telegrams::reading::koy_read;
use telegram_strict::strict_start;

// The start is judged here; the rest is the plain call's.
#[tactic(auto, unfolding(telegram_strict::specs::Strict::strict_of))]
pub fn koy_read_strict(bytes: &[u8], told: &mut [usize; 9]) -> u8
    ensures { record { code = result; told = told.new } ≡ koy_read_strict bytes.now told.old }
{
    match strict_start(bytes) {
        Err(why) => why as u8,
        Ok(()) => koy_read(bytes, told),
    }
}
