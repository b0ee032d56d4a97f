// The words of a line. A word begins behind a space and ends at the next one, or where the line ends. A command reads its words one after the
// other and stops at the first that cannot be read.
ghost use Rattle.std.specs.Prelude.{◌≡◌, ◌≤◌, ◌<◌, length, eqb, OnOk};
ghost use Rattle.std.specs.Result.{result_map_both};
ghost use Rattle.line_text.specs.Words.{word_len, word_in, behind_word, word_read, word_left, end_read, and_then, ended, number_split, byte_split, number_read, byte_read};

use std::fmt;

// Why a line is no command.
#[derive(Clone, Copy, Debug, PartialEq, Eq)]
pub enum Fault {
    TooManyWords,
    WordMissing,
    BadNumber,
    Above255,
    BadBytes,
    BytesTooLong,
    RoomTooLarge,
    BadFrameCountBit,
    BadOp,
    UnknownCommand,
    NotMade,
    LineTooLong,
}

impl fmt::Display for Fault {
    fn fmt<W: fmt::Write>(&self, f: &mut fmt::Formatter<W>) -> fmt::Result {
        f.write_str(match self {
            Fault::TooManyWords => "too many words",
            Fault::WordMissing => "word missing",
            Fault::BadNumber => "bad number",
            Fault::Above255 => "number above 255",
            Fault::BadBytes => "bad byte string",
            Fault::BytesTooLong => "byte string too long",
            Fault::RoomTooLarge => "room too large",
            Fault::BadFrameCountBit => "bad frame count bit",
            Fault::BadOp => "bad op",
            Fault::UnknownCommand => "unknown command",
            Fault::NotMade => "end not made yet",
            Fault::LineTooLong => "line too long",
        })
    }
}

// The largest number that is read; each place of a command then asks for less.
const LARGEST: u32 = 4294967295;

// What is left of a line behind the word that was read last.
#[derive(Clone, Copy)]
pub struct Words<'a> {
    rest: &'a [u8],
}

impl<'a> Words<'a> {
    // The words of a line without its line feed.
    pub fn new(line: &'a [u8]) -> Words<'a>
        ensures { result.rest.now ≡ line.now }
    {
        Words { rest: line }
    }

    pub fn is_end(&self) -> bool
        ensures { result ≡ eqb (length self.now.rest.now) 0 }
    {
        self.rest.is_empty()
    }

    // Behind the last word of a command the line ends.
    pub fn end(&self) -> Result<(), Fault>
        ensures { result ≡ end_read self.now.rest.now }
    {
        if self.is_end() {
            Ok(())
        } else {
            Err(Fault::TooManyWords)
        }
    }

    // The line's first word.
    pub fn name(&mut self) -> &'a [u8]
        ensures word { result.now ≡ word_in self.old.rest.now }
        ensures left { self.new.rest.now ≡ behind_word self.old.rest.now }
    {
        let line = self.rest;
        let len = word_len(line);
        self.rest = &line[len..];
        &line[..len]
    }

    // Less is left of the line behind it: so a loop over words ends.
    pub fn word(&mut self) -> Result<&'a [u8], Fault>
        ensures word { result_map_both (λ w. w.now) (λ e. e) result ≡ word_read self.old.rest.now }
        ensures left { self.new.rest.now ≡ word_left self.old.rest.now }
        ensures less { OnOk result (length self.new.rest.now < length self.old.rest.now) }
    {
        let [b' ', rest @ ..] = self.rest else {
            return Err(Fault::WordMissing);
        };
        self.rest = rest;
        Ok(self.name())
    }

    pub fn number(&mut self) -> Result<usize, Fault>
        ensures number { result ≡ and_then (word_read self.old.rest.now) number_read }
        ensures left { self.new.rest.now ≡ word_left self.old.rest.now }
    {
        let (number, rest) = split_number(self.word()?)?;
        ended(rest)?;
        Ok(number)
    }

    pub fn byte(&mut self) -> Result<u8, Fault>
        ensures byte { result ≡ and_then (word_read self.old.rest.now) byte_read }
        ensures left { self.new.rest.now ≡ word_left self.old.rest.now }
    {
        whole_byte(self.word()?)
    }
}

// How many bytes stand before the first space, or in the line where it has none.
fn word_len(line: &[u8]) -> usize
    ensures len { result ≡ word_len line.now }
    ensures within { result ≤ length line.now }
{
    line.iter().position(|b| *b == b' ').unwrap_or(line.len())
}

// A number at the front of these bytes, and the bytes behind it.
#[tactic(auto, using(crate::proofs::WordsLaws::number_within, crate::proofs::WordsLaws::number_rest))]
pub(crate) fn split_number(bytes: &[u8]) -> Result<(usize, &[u8]), Fault>
    ensures { result_map_both (λ n. (n.0, n.1.now)) (λ e. e) result ≡ number_split bytes.now }
{
    let number = text::get_decimal(bytes, 0, LARGEST).ok_or(Fault::BadNumber)?;
    Ok((number.value, &bytes[number.next..]))
}

// A byte in decimal at the front of these bytes, and the bytes behind it.
pub fn split_byte(bytes: &[u8]) -> Result<(u8, &[u8]), Fault>
    ensures { result_map_both (λ n. (n.0, n.1.now)) (λ e. e) result ≡ byte_split bytes.now }
{
    let (number, rest) = split_number(bytes)?;
    let byte = u8::try_from(number).map_err(|_| Fault::Above255)?;
    Ok((byte, rest))
}

// Nothing stands behind a number in its word.
pub(crate) fn ended(rest: &[u8]) -> Result<(), Fault>
    ensures { result ≡ ended rest.now }
{
    if rest.is_empty() {
        Ok(())
    } else {
        Err(Fault::BadNumber)
    }
}

// The byte that the whole of these bytes says.
pub fn whole_byte(bytes: &[u8]) -> Result<u8, Fault>
    ensures { result ≡ byte_read bytes.now }
{
    let (byte, rest) = split_byte(bytes)?;
    ended(rest)?;
    Ok(byte)
}
