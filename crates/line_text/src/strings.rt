// Byte strings in hexadecimal, and the buffers that calls are lent.
ghost use Rattle.std.specs.Prelude.{◌≡◌, ◌<◌, length, OnOk};
ghost use Rattle.std.specs.Result.{result_map_both};
ghost use Rattle.line_text.specs.Words.{word_read, word_left, and_then, room_read, digit_value, pair_value, hex_read, bytes_read};

use crate::words::{Fault, Words, ended, split_number};

// The longest byte string.
pub const BYTES: usize = 4200;

// The largest ROOM.
pub const ROOM: usize = 1024;

// The value of a hexadecimal digit.
fn digit_value(b: u8) -> Option<u8>
    ensures { result ≡ digit_value b }
{
    match b {
        b'0'..=b'9' => Some(b - b'0'),
        b'A'..=b'F' => Some(b - b'A' + 10),
        b'a'..=b'f' => Some(b - b'a' + 10),
        _ => None,
    }
}

// The byte of two digits, where both are digits.
fn pair_value(pair: &[u8]) -> Option<u8>
    ensures { result ≡ pair_value pair.now }
{
    match pair {
        [high, low] => Some(digit_value(*high)? << 4 | digit_value(*low)?),
        _ => None,
    }
}

// The bytes of these digits, at the front of the buffer. Whether there is room for one more byte is asked before its digits are read.
fn decode<'b>(digits: &[u8], bytes: &'b mut [u8; BYTES]) -> Result<&'b [u8], Fault>
    ensures { result_map_both (λ b. b.now) (λ e. e) result ≡ hex_read 4200 digits.now }
{
    let mut len = 0;
    for pair in digits.chunks(2) {
        if len == BYTES {
            return Err(Fault::BytesTooLong);
        }
        bytes[len] = pair_value(pair).ok_or(Fault::BadBytes)?;
        len += 1;
    }
    Ok(&bytes[..len])
}

// The byte string that a word says, at the front of the buffer.
#[tactic(auto, using(crate::proofs::StringsLaws::dash_read, crate::proofs::StringsLaws::digits_read))]
fn string_value<'b>(word: &[u8], bytes: &'b mut [u8; BYTES]) -> Result<&'b [u8], Fault>
    ensures { result_map_both (λ b. b.now) (λ e. e) result ≡ bytes_read word.now }
{
    match word {
        b"-" => Ok(&bytes[..0]),
        [] => Err(Fault::BadBytes),
        digits => decode(digits, bytes),
    }
}

impl<'a> Words<'a> {
    // How many bytes of a buffer are lent.
    pub fn room(&mut self) -> Result<usize, Fault>
        ensures room { result ≡ and_then (word_read self.old.rest.now) room_read }
        ensures left { self.new.rest.now ≡ word_left self.old.rest.now }
    {
        let (room, rest) = split_number(self.word()?)?;
        if ROOM < room {
            return Err(Fault::RoomTooLarge);
        }
        ended(rest)?;
        Ok(room)
    }

    // A byte string goes to the front of the buffer. One that does not fit it cannot be read.
    pub fn bytes<'b>(&mut self, bytes: &'b mut [u8; BYTES]) -> Result<&'b [u8], Fault>
        ensures bytes { result_map_both (λ b. b.now) (λ e. e) result ≡ and_then (word_read self.old.rest.now) bytes_read }
        ensures left { self.new.rest.now ≡ word_left self.old.rest.now }
        ensures less { OnOk result (length self.new.rest.now < length self.old.rest.now) }
    {
        string_value(self.word()?, bytes)
    }
}
