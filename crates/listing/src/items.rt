// What is listed at a place of the input, by what the reader answers there. Promises: `line_at` in specs/Telegrams.antt, `item_of` in
// specs/Leaves.antt.
ghost use Rattle.std.specs.Prelude.{◌≡◌, [], ◌≤◌, ◌<◌, length, drop};
ghost use Rattle.ground.specs.Part.{byte_at};
ghost use Rattle.telegram.specs.Reading.{read_of, whole};
ghost use Rattle.telegram.specs.declared.kinds.Telegram.TheVariants.{Data, Token, ShortConfirmation};
ghost use Rattle.listing.specs.Leaves.{item_of};
ghost use Rattle.listing.specs.Telegrams.{code_place, sap_figure, line_at};

use codes::consts;
use ground::Sap;
use listing_lines::{End, Item, Kind, Line};
use telegram::{DataTelegram, Telegram, TokenTelegram};
use telegram_strict::{DeserializedIn, Mode, deserialize_in};

fn sap_figure(sap: Option<Sap>) -> Option<usize>
    ensures { result ≡ sap_figure sap }
{
    sap.map(|sap| sap.0 as usize)
}

fn ack_line(at: usize, len: usize) -> Line
    ensures { result ≡ line_at at [] ShortConfirmation len }
{
    Line {
        at,
        kind: Kind::Ack,
        len,
        da: None,
        sa: None,
        dsap: None,
        ssap: None,
        fc: None,
        pdu: None,
    }
}

fn token_line(at: usize, t: TokenTelegram, len: usize) -> Line
    ensures { result ≡ line_at at [] (Token t) len }
{
    Line {
        at,
        kind: Kind::Token,
        len,
        da: Some(t.da.0 as usize),
        sa: Some(t.sa.0 as usize),
        dsap: None,
        ssap: None,
        fc: None,
        pdu: None,
    }
}

// The function code as it was received, bit 7 of a response with it, which the telegram that was read does not keep.
fn code_received(bytes: &[u8]) -> u8
    requires { code_place bytes.now < length bytes.now }
    ensures { result ≡ byte_at bytes.now (code_place bytes.now) }
{
    if bytes[0] == consts::SD2 {
        bytes[6]
    } else {
        bytes[3]
    }
}

#[tactic(auto, using(crate::proofs::ItemLaws::code_within))]
fn data_line(at: usize, bytes: &[u8], t: DataTelegram, len: usize) -> Line
    requires { read_of bytes.now ≡ whole (Data t) len }
    ensures { result ≡ line_at at bytes.now (Data t) len }
{
    Line {
        at,
        kind: Kind::Data,
        len,
        da: Some(t.h.da.0 as usize),
        sa: Some(t.h.sa.0 as usize),
        dsap: sap_figure(t.h.dsap),
        ssap: sap_figure(t.h.ssap),
        fc: Some(code_received(bytes) as usize),
        pdu: Some(t.pdu.len),
    }
}

fn line_at(at: usize, bytes: &[u8], telegram: Telegram, len: usize) -> Line
    requires { read_of bytes.now ≡ whole telegram len }
    ensures { result ≡ line_at at bytes.now telegram len }
{
    match telegram {
        Telegram::Data(t) => data_line(at, bytes, t, len),
        Telegram::Token(t) => token_line(at, t, len),
        Telegram::ShortConfirmation => ack_line(at, len),
    }
}

// The bytes are the input from a place on.
#[tactic(auto, using(telegram_strict::proofs::ModeLaws::mode_alike), unfolding(crate::specs::Leaves::item_of))]
fn item_of(mode: Mode, at: usize, bytes: &[u8]) -> Item
    ensures { result ≡ item_of mode at bytes.now }
{
    if bytes.is_empty() {
        return Item::Last(End::Done, at);
    }
    match deserialize_in(mode, bytes) {
        DeserializedIn::Telegram(t, len) => Item::Telegram(line_at(at, bytes, t, len)),
        DeserializedIn::Incomplete => Item::Last(End::Incomplete, at),
        DeserializedIn::Refused(number) => Item::Last(End::Refused(number), at),
    }
}

pub(crate) fn item_at(mode: Mode, input: &[u8], at: usize) -> Item
    requires { at ≤ length input.now }
    ensures { result ≡ item_of mode at (drop at input.now) }
{
    item_of(mode, at, &input[at..])
}
