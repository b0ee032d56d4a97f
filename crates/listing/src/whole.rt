// The whole text: counted first, then put to the front of the buffer. Promise: `Printed` in specs/Answers.antt, of `listing_in` and `output_in` in
// specs/Listing.antt.
ghost use Rattle.std.specs.Prelude.{◌≡◌, ◌+◌, ◌≤◌, length};
ghost use Rattle.text.specs.Placed.{Placed};
ghost use Rattle.listing_lines.specs.Lines.{item_text};
ghost use Rattle.listing.specs.Answers.{text_in, list_in, list_of, printed_of, Printed};
ghost use Rattle.listing.specs.Leaves.{lines_at};
ghost use Rattle.listing.specs.Listing.{listing_in, listing_of, refused_line, output_in, output_of};

use crate::items::item_at;
use ground::{Part, Refusal};
use listing_lines::{Item, put_item};
use telegram_strict::Mode;

// An input above it is refused by 22.
pub const INPUT_LIMIT: usize = 4096;

// A buffer of this length always has room (output_printed of proofs/AnswerLaws.antt).
pub const LISTING_ROOM: usize = 237596;

// The text, in the buffer that it was made in; no bytes where the call was refused.
pub fn text(listed: Result<usize, Refusal>, buf: &[u8]) -> &[u8]
    ensures { result.now ≡ text_in listed buf.now }
{
    Part {
        start: 0,
        len: listed.unwrap_or(0),
    }
    .show(buf)
}

// No line is longer than a scratch line (item_short of proofs/ItemLaws.antt), so that putting it there counts its bytes.
fn item_len(item: Item) -> usize
    requires { length (item_text item) ≤ 80 }
    ensures { result ≡ length (item_text item) }
{
    let mut scratch = [0u8; 80];
    put_item(&mut scratch, 0, item)
}

#[tactic(auto, using(crate::proofs::ListingLaws::ends_within))]
fn lines_len(mode: Mode, input: &[u8]) -> usize
    requires { length input.now ≤ 4096 }
    ensures { result ≡ length (lines_at mode input.now 0) }
{
    let mut len = 0;
    let mut at = 0;
    // A loop and no iterator over the items: the last one, behind which there is none, counts too.
    loop {
        let item = item_at(mode, input, at);
        len += item_len(item);
        let Item::Telegram(line) = item else {
            return len;
        };
        at += line.len;
    }
}

// (The walk of `lines_len` again: one over what is done at each item would be longer than both.)
#[tactic(auto, using(crate::proofs::ListingLaws::ends_within, crate::proofs::ListingLaws::goes_on))]
fn put_lines(mode: Mode, buf: &mut [u8], to: usize, input: &[u8]) -> usize
    requires { to ≤ length buf.old + 1 }
    ensures { Placed buf.old to (lines_at mode input.now 0) result buf.new }
{
    let mut next = to;
    let mut at = 0;
    // As in `lines_len`.
    loop {
        let item = item_at(mode, input, at);
        next = put_item(buf, next, item);
        let Item::Telegram(line) = item else {
            return next;
        };
        at += line.len;
    }
}

#[tactic(auto, using(crate::proofs::ListingLaws::lines_small, crate::proofs::ListingLaws::listing_length, listing_lines::proofs::LineLaws::four_digits))]
fn listing_len(mode: Mode, input: &[u8]) -> usize
    requires { length input.now ≤ 4096 }
    ensures { result ≡ length (listing_in mode input.now) }
{
    7 + text::decimal_len(input.len()) + lines_len(mode, input)
}

fn put_listing(mode: Mode, buf: &mut [u8], input: &[u8]) -> usize
    ensures { Placed buf.old 0 (listing_in mode input.now) result buf.new }
{
    let number = text::put_bytes(buf, 0, b"bytes=");
    let feed = text::put_decimal(buf, number, input.len());
    let lines = text::put_byte(buf, feed, b'\n');
    put_lines(mode, buf, lines, input)
}

// The listing of an input of at most 4,096 bytes, as a mode reads it. The room is counted first: a refused call leaves the buffer as it came.
#[tactic(auto, unfolding(crate::specs::Answers::list_in, crate::specs::Answers::printed_of))]
pub fn list_in(mode: Mode, input: &[u8], buf: &mut [u8]) -> Result<usize, Refusal>
    ensures { Printed (listing_in mode input.now) buf.old
        (list_in mode input.now (length buf.old))
        result buf.new }
{
    if input.len() > INPUT_LIMIT {
        return Err(Refusal::InputTooLong);
    }
    if buf.len() < listing_len(mode, input) {
        return Err(Refusal::NoRoom);
    }
    Ok(put_listing(mode, buf, input))
}

// Document 01's listing.
pub fn list(input: &[u8], buf: &mut [u8]) -> Result<usize, Refusal>
    ensures { Printed (listing_of input.now) buf.old
        (list_of input.now (length buf.old))
        result buf.new }
{
    list_in(Mode::Default, input, buf)
}

#[tactic(auto, unfolding(crate::specs::Answers::printed_of))]
fn put_refused(buf: &mut [u8]) -> Result<usize, Refusal>
    ensures { Printed refused_line buf.old (printed_of refused_line (length buf.old)) result buf.new }
{
    if buf.len() < 11 {
        return Err(Refusal::NoRoom);
    }
    Ok(text::put_bytes(buf, 0, b"refused=22\n"))
}

// All that the lister prints for an input, as a mode reads it: its listing, or the one line of refusal 22.
#[tactic(auto, using(crate::proofs::AnswerLaws::list_printed), unfolding(crate::specs::Listing::output_in))]
pub fn output_in(mode: Mode, input: &[u8], buf: &mut [u8]) -> Result<usize, Refusal>
    ensures { Printed (output_in mode input.now) buf.old
        (printed_of (output_in mode input.now) (length buf.old))
        result buf.new }
{
    if input.len() > INPUT_LIMIT {
        return put_refused(buf);
    }
    list_in(mode, input, buf)
}

// Document 01's.
pub fn output(input: &[u8], buf: &mut [u8]) -> Result<usize, Refusal>
    ensures { Printed (output_of input.now) buf.old
        (printed_of (output_of input.now) (length buf.old))
        result buf.new }
{
    output_in(Mode::Default, input, buf)
}
