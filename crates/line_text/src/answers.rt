// What answers are made of: text that is laid down and written to standard output in pieces. No `fmt::Write`: nothing here fails, and its calls
// answer a `Result`.
// Promises: specs/Out.antt.
ghost use Rattle.std.specs.Prelude.{◌≡◌, [], ◌∷◌, List, ℕ, codes, drop, replicate};
ghost use Rattle.std.specs.List.{list_any};
ghost use Rattle.std.specs.Iterator.{IsFinite, Drains};
ghost use Rattle.ground.specs.Refusals.{number_of};
ghost use Rattle.text.specs.Decimal.{decimal_of};
ghost use Rattle.line_text.specs.Out.{place_of, paused_place, Lays, Laid, bool_piece, hex_piece, byte_or_dash_pieces, refused_pieces, ok_or_refused_pieces, list_pieces, is_written, touched_pieces};

use crate::bytes::front;
use crate::printing::{Streams, print};
use ground::Refusal;

// Room for what is laid down up to FULL, and for one piece more, of which none has more than 32,768 bytes.
const OUT: usize = 82432;

// From here on what was laid down is written out at the next pause. There and nowhere else, so that where both streams go to one place a reason on
// standard error stands behind a whole answer, or a whole part of a long one.
const ENOUGH: usize = 32768;

// From here on it is written out even before the next piece. No program lays down so much: the longest part of an answer, of `raw` with 4,200 bytes, has
// 16,808 bytes with its line feed, and a pause leaves less than ENOUGH in front of it.
const FULL: usize = 49664;

// (Bytes and a place: crate `text` lays into lent bytes.)
#[derive(Drop)]
pub struct Out<'a> {
    streams: &'a Streams,
    bytes: [u8; OUT],
    to: usize,
}

impl<'a> Out<'a> {
    pub fn new(streams: &'a Streams) -> Out<'a>
        ensures streams { result.streams ≡ streams.entry }
        ensures place { result.to ≡ 0 }
        ensures bytes { result.bytes ≡ replicate OUT 0 }
    {
        Out {
            streams,
            bytes: [0; OUT],
            to: 0,
        }
    }

    // Writes out what was laid down.
    pub fn flush(&mut self)
        ensures streams { self.new.streams ≡ self.old.streams }
        ensures place { self.new.to ≡ 0 }
        ensures bytes { self.new.bytes ≡ self.old.bytes }
    {
        print(self.streams, front(&self.bytes, self.to));
        self.to = 0;
    }

    // Between answers, and between the parts of a long one.
    #[tactic(auto, unfolding(crate::specs::Out::paused_place))]
    pub fn pause(&mut self)
        ensures streams { self.new.streams ≡ self.old.streams }
        ensures place { self.new.to ≡ paused_place self.old }
        ensures bytes { self.new.bytes ≡ self.old.bytes }
    {
        if ENOUGH <= self.to {
            self.flush();
        }
    }

    // Where the next piece goes.
    #[tactic(auto, unfolding(crate::specs::Out::place_of))]
    fn place(&mut self) -> usize
        ensures place { result ≡ place_of self.old }
        ensures streams { self.new.streams ≡ self.old.streams }
        ensures bytes { self.new.bytes ≡ self.old.bytes }
    {
        if FULL < self.to {
            self.flush();
        }
        self.to
    }

    pub fn text(&mut self, text: &str)
        ensures { Lays self.old text.now self.new }
    {
        self.raw(text.as_bytes());
    }

    // Bytes as they are.
    pub fn raw(&mut self, bytes: &[u8])
        ensures { Lays self.old bytes.now self.new }
    {
        let at = self.place();
        self.to = text::put_bytes(&mut self.bytes, at, bytes);
    }

    pub fn number(&mut self, n: usize)
        ensures { Lays self.old (decimal_of n) self.new }
    {
        let at = self.place();
        self.to = text::put_decimal(&mut self.bytes, at, n);
    }

    pub fn byte(&mut self, n: u8)
        ensures { Lays self.old (decimal_of n) self.new }
    {
        self.number(usize::from(n));
    }

    pub fn bool(&mut self, on: bool)
        ensures { Lays self.old (bool_piece on) self.new }
    {
        self.number(usize::from(on));
    }

    // A byte string; `-` where it is empty.
    pub fn hex(&mut self, bytes: &[u8])
        ensures { Lays self.old (hex_piece bytes.now) self.new }
    {
        if bytes.is_empty() {
            self.text("-");
            return;
        }
        let at = self.place();
        self.to = text::put_hex(&mut self.bytes, at, bytes);
    }

    // The same behind a space.
    #[tactic(auto, using(crate::proofs::OutLaws::two))]
    pub fn next_number(&mut self, n: usize)
        ensures { Laid self.old (codes " " ∷ decimal_of n ∷ []) self.new }
    {
        self.text(" ");
        self.number(n);
    }

    pub fn next_byte(&mut self, n: u8)
        ensures { Laid self.old (codes " " ∷ decimal_of n ∷ []) self.new }
    {
        self.next_number(usize::from(n));
    }

    // A byte that may be absent, as `-` where it is.
    #[tactic(auto, using(crate::proofs::OutLaws::one))]
    pub fn next_byte_or_dash(&mut self, n: Option<u8>)
        ensures { Laid self.old (byte_or_dash_pieces n) self.new }
    {
        match n {
            Some(n) => self.next_byte(n),
            None => self.text(" -"),
        }
    }

    #[tactic(auto, using(crate::proofs::OutLaws::two))]
    pub fn next_hex(&mut self, bytes: &[u8])
        ensures { Laid self.old (codes " " ∷ hex_piece bytes.now ∷ []) self.new }
    {
        self.text(" ");
        self.hex(bytes);
    }

    // What joins the parts of an answer.
    pub fn bar(&mut self)
        ensures { Lays self.old (codes " | ") self.new }
    {
        self.text(" | ");
    }

    #[tactic(auto, using(crate::proofs::OutLaws::two))]
    pub fn refused(&mut self, refusal: Refusal)
        ensures { Laid self.old (refused_pieces refusal) self.new }
    {
        self.text("refused ");
        self.byte(refusal.number());
    }

    // A refusal inside an answer.
    #[tactic(auto, using(crate::proofs::OutLaws::two))]
    pub fn refusal(&mut self, refusal: Refusal)
        ensures { Laid self.old (codes "refused-" ∷ decimal_of (number_of refusal) ∷ []) self.new }
    {
        self.text("refused-");
        self.byte(refusal.number());
    }

    #[tactic(auto, using(crate::proofs::OutLaws::one))]
    pub fn ok_or_refused(&mut self, answer: Result<(), Refusal>)
        ensures { Laid self.old (ok_or_refused_pieces answer) self.new }
    {
        match answer {
            Ok(()) => self.text("ok"),
            Err(refusal) => self.refused(refusal),
        }
    }

    // The numbers of a list, with commas between them; `-` where it is empty.
    #[tactic(auto, using(crate::proofs::OutLaws::whole_list))]
    pub fn list<I: Iterator<Item = usize> + Drop>(&mut self, numbers: I)
        requires { I.can_next numbers × IsFinite (I.remaining numbers) }
        ensures { (xs : List ℕ) × Drains I.next_gives numbers xs × Laid self.old (list_pieces xs) self.new }
    {
        let mut is_first = true;
        for item in numbers {
            if !is_first {
                self.text(",");
            }
            self.number(item);
            is_first = false;
        }
        if is_first {
            self.text("-");
        }
    }

    // A call writes its telegram and nothing else: where its buffer, which was lent full of AA, says otherwise behind so many bytes, `!`
    // and the buffer.
    #[tactic(auto, using(crate::proofs::OutLaws::two, crate::proofs::OutLaws::untouched), unfolding(crate::specs::Out::touched_pieces))]
    pub fn touched(&mut self, buffer: &[u8], len: usize)
        ensures { Laid self.old (touched_pieces buffer.now len) self.new }
    {
        if is_touched(buffer, len) {
            self.text(" !");
            self.hex(buffer);
        }
    }
}

// Whether a byte behind so many is not AA.
fn is_touched(buffer: &[u8], len: usize) -> bool
    ensures { result ≡ list_any is_written (drop len buffer.now) }
{
    buffer.iter().skip(len).any(|b| *b != 0xAA)
}
