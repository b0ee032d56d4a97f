// A line of the text, `name=number` and a line feed. Promises: `line_at` and `line_of` in specs/Lines.antt.
ghost use Rattle.std.specs.Prelude.{◌≡◌};
ghost use Rattle.settings.specs.Lines.{line_of, line_at};
ghost use Rattle.text.specs.Placed.{Placed};

// The number of a line `name=number` that was read, with the place behind its line feed.
#[derive(Clone, Copy, Debug, PartialEq, Eq)]
pub struct Line {
    pub value: u8,
    pub next: usize,
}

// The line at a place whose number's name, with its `=`, is given.
#[tactic(auto, using(crate::proofs::LineLaws::number_small, crate::proofs::LineLaws::begins_short, text::proofs::BeginsLaws::there_within), unfolding(crate::specs::Lines::line_at))]
pub(crate) fn get_line(text: &[u8], at: usize, name: &[u8]) -> Option<Line>
    ensures { result ≡ line_at name.now text.now at }
{
    if !text::begins_at(text, at, name) {
        return None;
    }
    let number = text::get_decimal(text, at + name.len(), 255)?;
    if !text::byte_is_at(text, number.next, b'\n') {
        return None;
    }
    Some(Line {
        value: number.value as u8,
        next: number.next + 1,
    })
}

// Puts the line of a number whose name, with its `=`, is given.
pub(crate) fn put_line(buf: &mut [u8], at: usize, name: &[u8], value: u8) -> usize
    ensures { Placed buf.old at (line_of name.now value) result buf.new }
{
    let number = text::put_bytes(buf, at, name);
    let end = text::put_decimal(buf, number, value as usize);
    text::put_byte(buf, end, b'\n')
}
