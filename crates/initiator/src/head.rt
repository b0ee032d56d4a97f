// The head of an initiator's record: all of it but the order, small enough to go by value. The order stays in bytes that the caller lends,
// and the telegram is written straight from them. Here too: what the calls of `calls.rt` are made of, by `specs/Leaves.antt`.
ghost use Rattle.std.specs.Prelude.{◌≡◌, List, ℕ, ◌≤◌, length};
ghost use Rattle.initiator.specs.Heads.{whole_of};
ghost use Rattle.initiator.specs.Leaves.{staying, written_of, header_in, Wrote, was_sent};
ghost use Rattle.initiator.specs.Records.{len_of, order_of};
ghost use Rattle.link_rules.specs.Rules.{longest};

use crate::answer::InitiatorAnswer;
use crate::state::Phase;
use ground::Refusal;
use link_rules::{LONGEST, Link};
use link_telegrams::{Bit, opening_header, order_header};
use telegram::DataTelegramHeader;
use telegram_tx::{TelegramTxResponse, send_data_telegram};

#[derive(Clone, Copy, Debug, PartialEq, Eq)]
pub struct InitiatorHead {
    pub link: Link,
    pub tries: u8,
    pub phase: Phase,
    // The pending order is the first `len` of the bytes that are lent with the head.
    pub len: usize,
}

// What a call on a head says, and what of the head is another now. No `Returned`: link and tries never change, so they do not come back.
#[derive(Clone, Copy, Debug, PartialEq, Eq)]
pub struct InitiatorHeadTurn {
    pub answer: InitiatorAnswer,
    pub phase: Phase,
    pub len: usize,
}

// No order is pending any more.
pub(crate) fn end(answer: InitiatorAnswer, phase: Phase) -> InitiatorHeadTurn
    ensures { result ≡ record { answer = answer; phase = phase; len = 0 } }
{
    InitiatorHeadTurn {
        answer,
        phase,
        len: 0,
    }
}

// Nothing of the head changes.
fn stay(answer: InitiatorAnswer, head: InitiatorHead) -> InitiatorHeadTurn
    ensures { result ≡ staying answer head }
{
    InitiatorHeadTurn {
        answer,
        phase: head.phase,
        len: head.len,
    }
}

pub(crate) fn refuse(head: InitiatorHead, refusal: Refusal) -> InitiatorHeadTurn
    ensures { result ≡ staying (InitiatorAnswer.Refused refusal) head }
{
    stay(InitiatorAnswer::Refused(refusal), head)
}

pub(crate) fn nothing(head: InitiatorHead) -> InitiatorHeadTurn
    ensures { result ≡ staying InitiatorAnswer.Nothing head }
{
    stay(InitiatorAnswer::Nothing, head)
}

pub(crate) fn was_sent(answer: InitiatorAnswer) -> bool
    ensures { result ≡ was_sent answer }
{
    matches!(answer, InitiatorAnswer::Sent(_))
}

// The call is over once the writer has answered: the head goes on where it wrote, and stays where it refused.
fn written(
    res: Result<TelegramTxResponse, Refusal>,
    head: InitiatorHead,
    phase: Phase,
    len: usize,
) -> InitiatorHeadTurn
    ensures { result ≡ written_of res head phase len }
{
    match res {
        Ok(response) => {
            let answer = InitiatorAnswer::Sent(response.bytes_sent());
            InitiatorHeadTurn { answer, phase, len }
        }
        Err(refusal) => refuse(head, refusal),
    }
}

// The header of a phase's telegram: the opening's where no order has been sent yet.
fn header_in(link: Link, phase: Phase) -> DataTelegramHeader
    ensures { result ≡ header_in link phase }
{
    match phase {
        Phase::Closed | Phase::Opening(_) => opening_header(link),
        Phase::Ready(bit) | Phase::Order(bit, _) => order_header(link, bit),
    }
}

// The telegram of this phase, in which the head goes on. Its PDU is written straight from where it was lent.
pub(crate) fn send(
    head: InitiatorHead,
    phase: Phase,
    len: usize,
    pdu: &[u8],
    buf: &mut [u8],
) -> InitiatorHeadTurn
    ensures { Wrote head phase len pdu.now result buf.old buf.new }
{
    let result = send_data_telegram(header_in(head.link, phase), pdu, buf);
    written(result, head, phase, len)
}

// The pending order under its bit.
pub(crate) fn send_kept(
    head: InitiatorHead,
    bit: Bit,
    used: u8,
    kept: &[u8],
    buf: &mut [u8],
) -> InitiatorHeadTurn
    requires { longest ≤ length kept.now }
    ensures { Wrote head (Phase.Order bit used) head.len (order_of (whole_of head kept.now)) result buf.old buf.new }
{
    let len = head.order_len();
    send(head, Phase::Order(bit, used), head.len, &kept[..len], buf)
}

impl InitiatorHead {
    // How many bytes of what is lent are the order: never more than an order may have, whatever the head says.
    pub fn order_len(self) -> usize
        ensures { (kept : List ℕ) → result ≡ len_of (whole_of self kept) }
    {
        self.len.min(LONGEST)
    }
}
