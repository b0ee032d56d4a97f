// Strict reading: a gate in front of `Telegram::deserialize`, which stays as it is. Promise: `start_of`, `strict_of` and `read_in` in
// specs/Strict.antt.
ghost use Rattle.std.specs.Prelude.{◌≡◌};
ghost use Rattle.telegram.specs.Reading.{shown_reading};
ghost use Rattle.telegram_strict.specs.Strict.{past_lengths, read_in, shown_in, shown_start, start_of, strict_of};

use codes::consts;
use telegram::{Deserialized, Telegram};

// What strict mode alone refuses an SD2 telegram's start for, by the number that it is refused with. They are none of `ground::Refusal`, which is
// document 01's list: what goes by that, the order link above all, is compiled as before.
#[derive(Clone, Copy, Debug, PartialEq, Eq)]
pub enum Sloppiness {
    LengthNotStandard = 24,
    FourthByte = 25,
}

// How bytes are read. The default is document 01's mode, which reads what the Rust reads; the order link keeps it.
#[derive(Clone, Copy, Debug, PartialEq, Eq)]
pub enum Mode {
    Default,
    Strict,
}

// What reading in a mode finds: a telegram with its total length, too few bytes to tell, or a refusal by its number, for those of either list.
// Document 01: `Option<Result<..>>` becomes a three-way answer.
#[derive(Clone, Copy, Debug, PartialEq, Eq)]
pub enum DeserializedIn {
    Telegram(Telegram, usize),
    Incomplete,
    Refused(u8),
}

// Whether the checks of strict mode are come to: refusals 2 and 3 are behind them.
#[tactic(auto, unfolding(crate::specs::Strict::past_lengths))]
fn past_lengths(bytes: &[u8]) -> bool
    ensures { result ≡ past_lengths bytes.now }
{
    bytes.len() >= 6 && bytes[0] == consts::SD2 && bytes[1] == bytes[2] && bytes[1] >= 3
}

// The two checks of strict mode: L, then the fourth byte. Nothing is against bytes that begin with no SD2 telegram or whose lengths document 01
// already refuses.
#[tactic(auto, using(crate::proofs::StartLaws::past_six), unfolding(crate::specs::Strict::start_of))]
pub fn strict_start(bytes: &[u8]) -> Result<(), Sloppiness>
    ensures { shown_start result ≡ start_of bytes.now }
{
    if !past_lengths(bytes) {
        return Ok(());
    }
    let l = bytes[1];
    if l < 4 || l > 249 {
        return Err(Sloppiness::LengthNotStandard);
    }
    if bytes[3] != consts::SD2 {
        return Err(Sloppiness::FourthByte);
    }
    Ok(())
}

// What the default reader found, a refusal by its number.
// (No `From`: both of its types are answers of reading, and it is a call with a name.)
fn by_number(found: Deserialized) -> DeserializedIn
    ensures { shown_in result ≡ shown_reading found }
{
    match found {
        Deserialized::Telegram(telegram, total) => DeserializedIn::Telegram(telegram, total),
        Deserialized::Incomplete => DeserializedIn::Incomplete,
        Deserialized::Refused(refusal) => DeserializedIn::Refused(refusal.number()),
    }
}

// The telegram that these bytes begin with, in strict mode.
#[tactic(auto, unfolding(crate::specs::Strict::strict_of))]
pub fn deserialize_strict(buffer: &[u8]) -> DeserializedIn
    ensures { shown_in result ≡ strict_of buffer.now }
{
    match strict_start(buffer) {
        Err(why) => DeserializedIn::Refused(why as u8),
        Ok(()) => by_number(Telegram::deserialize(buffer)),
    }
}

pub fn deserialize_in(mode: Mode, buffer: &[u8]) -> DeserializedIn
    ensures { shown_in result ≡ read_in mode buffer.now }
{
    match mode {
        Mode::Default => by_number(Telegram::deserialize(buffer)),
        Mode::Strict => deserialize_strict(buffer),
    }
}
