// A line of the listing: what it says, and its bytes put into the buffer. Promise: `item_text` in specs/Lines.antt.
ghost use Rattle.std.specs.Prelude.{◌≡◌, ◌++◌};
ghost use Rattle.text.specs.Placed.{Placed};
ghost use Rattle.text.specs.Decimal.{decimal_of};
ghost use Rattle.listing_lines.specs.Lines.{figure_of, kind_field, place_of, header_of, content_of, line_of, end_name, end_of, shown_end, item_text};

#[derive(Clone, Copy, Debug, PartialEq, Eq)]
pub enum Kind {
    Ack,
    Token,
    Data,
}

// What the line of a telegram says.
#[derive(Clone, Copy, Debug, PartialEq, Eq)]
pub struct Line {
    pub at: usize,
    pub kind: Kind,
    pub len: usize,
    pub da: Option<usize>,
    pub sa: Option<usize>,
    pub dsap: Option<usize>,
    pub ssap: Option<usize>,
    pub fc: Option<usize>,
    pub pdu: Option<usize>,
}

// Why the listing ends; a refusal by its number.
// (The refusals of either list have only their number in common, as in `DeserializedIn`.)
#[derive(Clone, Copy, Debug, PartialEq, Eq)]
pub enum End {
    Done,
    Incomplete,
    Refused(u8),
}

// What is listed at a place of the input: the line of the telegram that starts there, or that the listing ends.
#[derive(Clone, Copy, Debug, PartialEq, Eq)]
pub enum Item {
    Telegram(Line),
    Last(End, usize),
}

fn put_number(buf: &mut [u8], to: usize, name: &[u8], n: usize) -> usize
    ensures { Placed buf.old to (name.now ++ decimal_of n) result buf.new }
{
    let value = text::put_bytes(buf, to, name);
    text::put_decimal(buf, value, n)
}

fn put_figure(buf: &mut [u8], to: usize, name: &[u8], figure: Option<usize>) -> usize
    ensures { Placed buf.old to (name.now ++ figure_of figure) result buf.new }
{
    let value = text::put_bytes(buf, to, name);
    match figure {
        Some(n) => text::put_decimal(buf, value, n),
        None => text::put_byte(buf, value, b'-'),
    }
}

fn put_kind(buf: &mut [u8], to: usize, kind: Kind) -> usize
    ensures { Placed buf.old to (kind_field kind) result buf.new }
{
    match kind {
        Kind::Ack => text::put_bytes(buf, to, b" kind=ack"),
        Kind::Token => text::put_bytes(buf, to, b" kind=token"),
        Kind::Data => text::put_bytes(buf, to, b" kind=data"),
    }
}

fn put_place(buf: &mut [u8], to: usize, line: Line) -> usize
    ensures { Placed buf.old to (place_of line) result buf.new }
{
    let kind_to = put_number(buf, to, b"at=", line.at);
    let len_to = put_kind(buf, kind_to, line.kind);
    put_number(buf, len_to, b" len=", line.len)
}

fn put_header(buf: &mut [u8], to: usize, line: Line) -> usize
    ensures { Placed buf.old to (header_of line) result buf.new }
{
    let sa_to = put_figure(buf, to, b" da=", line.da);
    let dsap_to = put_figure(buf, sa_to, b" sa=", line.sa);
    let ssap_to = put_figure(buf, dsap_to, b" dsap=", line.dsap);
    put_figure(buf, ssap_to, b" ssap=", line.ssap)
}

fn put_content(buf: &mut [u8], to: usize, line: Line) -> usize
    ensures { Placed buf.old to (content_of line) result buf.new }
{
    let pdu_to = put_figure(buf, to, b" fc=", line.fc);
    let end = put_figure(buf, pdu_to, b" pdu=", line.pdu);
    text::put_byte(buf, end, b'\n')
}

fn put_line(buf: &mut [u8], to: usize, line: Line) -> usize
    ensures { Placed buf.old to (line_of line) result buf.new }
{
    let header = put_place(buf, to, line);
    let content = put_header(buf, header, line);
    put_content(buf, content, line)
}

fn put_end_name(buf: &mut [u8], to: usize, end: End) -> usize
    ensures { Placed buf.old to (end_name (shown_end end)) result buf.new }
{
    match end {
        End::Done => text::put_bytes(buf, to, b"end=done"),
        End::Incomplete => text::put_bytes(buf, to, b"end=incomplete"),
        End::Refused(number) => put_number(buf, to, b"end=refused-", number as usize),
    }
}

fn put_end(buf: &mut [u8], to: usize, end: End, at: usize) -> usize
    ensures { Placed buf.old to (end_of (shown_end end) at) result buf.new }
{
    let at_to = put_end_name(buf, to, end);
    let feed = put_number(buf, at_to, b" at=", at);
    text::put_byte(buf, feed, b'\n')
}

// At a place of the buffer; gives the place behind it. Bytes beyond the buffer's end are dropped.
pub fn put_item(buf: &mut [u8], to: usize, item: Item) -> usize
    ensures { Placed buf.old to (item_text item) result buf.new }
{
    match item {
        Item::Telegram(line) => put_line(buf, to, line),
        Item::Last(end, at) => put_end(buf, to, end, at),
    }
}
