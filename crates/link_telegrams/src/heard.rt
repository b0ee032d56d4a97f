// What heard bytes are to an end of the link. They are judged on the frame and by the code's byte: no code is decoded and no telegram
// built. Promises: `specs/Heard.antt`; that both ways agree: `proofs/PlainLaws.antt`.
ghost use Rattle.std.specs.Prelude.{◌≡◌};
ghost use Rattle.telegram.specs.Frames.{framing_of, frame_is};
ghost use Rattle.link_telegrams.specs.Heard.{data_to_of, request_in, request_to_of, request_from, request_heard_of, reply_from, reply_heard_of};
ghost use Rattle.link_telegrams.specs.Leaves.{decoded_of, decoded, asked_of, is_request};

use crate::headers::Bit;
use ground::{Address, Part};
use link_rules::{LONGEST, Link};
use telegram::{Frame, FrameFound, frame_of};

// The code's byte of a request SRD low with First.
const FIRST: u8 = 0x6C;
// With High.
const HIGH: u8 = 0x7C;
// With Low.
const LOW: u8 = 0x5C;
// With Inactive.
const INACTIVE: u8 = 0x4C;
// The code's byte of a slave's response Ok, but for bit 7, which is ignored.
const OK: u8 = 0x00;
// Of its response DataLow.
const DATA_LOW: u8 = 0x08;

// What a station hears: one data telegram to it without SAPs that fills the bytes, by its sender, its code's byte and its PDU. Whether the
// byte is one of a code is left open: an end looks for a few codes alone.
#[derive(Clone, Copy)]
struct PlainHeard {
    sa: Address,
    code: u8,
    pdu: Part,
}

// What heard bytes are to a responder.
// (No `Option`: what is nothing to an end is one of document 01's cases.)
#[derive(Clone, Copy, Debug, PartialEq, Eq)]
pub enum RequestHeard {
    Opening,
    Order(Bit, Part),
    Nothing,
}

// What heard bytes are to an initiator.
// (No `Option`, as of `RequestHeard`.)
#[derive(Clone, Copy, Debug, PartialEq, Eq)]
pub enum ReplyHeard {
    Ok,
    Reply(Part),
    Nothing,
}

impl PlainHeard {
    // What the telegram asks of a responder, whoever sent it.
    #[tactic(auto, using(crate::proofs::HeardCases::asked_cases))]
    fn asked(self) -> RequestHeard
        ensures { result ≡ asked_of (request_in (decoded_of self)) }
    {
        match self.code {
            FIRST if self.pdu.len == 0 => RequestHeard::Opening,
            HIGH => RequestHeard::Order(Bit::High, self.pdu),
            LOW => RequestHeard::Order(Bit::Low, self.pdu),
            _ => RequestHeard::Nothing,
        }
    }

    #[tactic(auto, using(crate::proofs::HeardCases::request_cases))]
    fn is_srd_low(self) -> bool
        ensures { result ≡ is_request (request_in (decoded_of self)) }
    {
        matches!(self.code, FIRST | HIGH | LOW | INACTIVE)
    }

    // The telegram to a responder, with its sender.
    fn request(self) -> Option<(Address, RequestHeard)>
        ensures { result ≡ request_in (decoded_of self) }
    {
        if self.is_srd_low() {
            Some((self.sa, self.asked()))
        } else {
            None
        }
    }

    // What the telegram asks of the responder of a link: the sender is looked at first, since that is the shorter way to both answers.
    fn request_from(self, peer: Address) -> RequestHeard
        ensures { result ≡ request_from peer (request_in (decoded_of self)) }
    {
        if self.sa == peer {
            self.asked()
        } else {
            RequestHeard::Nothing
        }
    }

    // What the telegram to an initiator is as a reply: the peer's, of a slave.
    #[tactic(auto, using(crate::proofs::HeardCases::reply_cases))]
    fn reply_from(self, peer: Address) -> ReplyHeard
        ensures { result ≡ reply_from peer (decoded_of self) }
    {
        if self.sa != peer {
            return ReplyHeard::Nothing;
        }
        match self.code % 128 {
            OK if self.pdu.len == 0 => ReplyHeard::Ok,
            DATA_LOW if self.pdu.len <= LONGEST => ReplyHeard::Reply(self.pdu),
            _ => ReplyHeard::Nothing,
        }
    }
}

// Of a frame that was found in the heard bytes. Whether it fills them is asked of its place and length, from which the seal is told too.
// An address byte above 127 announces a SAP. The checksum costs the most and comes last.
#[tactic(auto, using(crate::proofs::PlainLaws::frame_cases))]
fn plain_in(own: Address, heard: &[u8], frame: Frame) -> Option<PlainHeard>
    requires { framing_of heard.now ≡ frame_is frame }
    ensures { decoded result ≡ data_to_of own heard.now }
{
    let at = frame.at;
    if at + frame.len + 2 != heard.len() {
        return None;
    }
    let da = heard[at];
    let sa = heard[at + 1];
    if da != own.0 || 127 < da || 127 < sa || !frame.is_sealed(heard) {
        return None;
    }
    Some(PlainHeard {
        sa: Address(sa),
        code: frame.code,
        pdu: Part {
            start: at + 3,
            len: frame.len - 3,
        },
    })
}

#[tactic(auto, using(crate::proofs::PlainLaws::no_frame_cases))]
fn plain_to(own: Address, heard: &[u8]) -> Option<PlainHeard>
    ensures { decoded result ≡ data_to_of own heard.now }
{
    match frame_of(heard) {
        FrameFound::Is(frame) => plain_in(own, heard, frame),
        FrameFound::Incomplete | FrameFound::Refused(_) => None,
    }
}

// Which station's request SRD low to `own` these bytes are, and what it is to a responder.
#[tactic(auto, unfolding(crate::specs::Heard::request_to_of))]
pub fn request_to(own: Address, heard: &[u8]) -> Option<(Address, RequestHeard)>
    ensures { result ≡ request_to_of own heard.now }
{
    plain_to(own, heard)?.request()
}

// What these bytes are to the responder of the link: a request of its initiator.
#[tactic(auto, unfolding(crate::specs::Heard::request_heard_of, crate::specs::Heard::request_to_of))]
pub fn request_heard(link: Link, heard: &[u8]) -> RequestHeard
    ensures { result ≡ request_heard_of link heard.now }
{
    let Some(plain) = plain_to(link.own, heard) else {
        return RequestHeard::Nothing;
    };
    plain.request_from(link.peer)
}

// What these bytes are to the initiator of the link: a reply of its responder.
#[tactic(auto, unfolding(crate::specs::Heard::reply_heard_of))]
pub fn reply_heard(link: Link, heard: &[u8]) -> ReplyHeard
    ensures { result ≡ reply_heard_of link heard.now }
{
    let Some(plain) = plain_to(link.own, heard) else {
        return ReplyHeard::Nothing;
    };
    plain.reply_from(link.peer)
}
