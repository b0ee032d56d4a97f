// The calls of an initiator, on its head and the bytes lent for its order: document 01's rules. Promises: `specs/Heads.antt`, of the
// definitions in `specs/Calls.antt`.
ghost use Rattle.std.specs.Prelude.{◌≡◌, List, [], ℕ, ◌≤◌, length};
ghost use Rattle.ground.specs.Front.{copied_to};
ghost use Rattle.initiator.specs.Calls.{shown_said, submit_of, awaiting_ok, awaiting_reply, restart_of};
ghost use Rattle.initiator.specs.Heads.{whole_of, shown_on, submit_on, silence_on, hear_on};
ghost use Rattle.initiator.specs.Leaves.{kept_after, first_phase, first_len, given_up};
ghost use Rattle.link_rules.specs.Rules.{longest};

use crate::answer::InitiatorAnswer;
use crate::head::{
    InitiatorHead, InitiatorHeadTurn, end, nothing, refuse, send, send_kept, was_sent,
};
use crate::state::Phase;
use ground::{Refusal, copy_to_front};
use link_rules::{LONGEST, ROOM, wrong_length};
use link_telegrams::{Bit, ReplyHeard, reply_heard};

// In the opening's phase its reply is awaited, and then the order is sent.
fn hear_opening_reply(
    head: InitiatorHead,
    heard: ReplyHeard,
    kept: &[u8],
    buf: &mut [u8],
) -> InitiatorHeadTurn
    requires { longest ≤ length kept.now }
    ensures { shown_on result head kept.now buf.new ≡ awaiting_ok heard (whole_of head kept.now) buf.old }
{
    match heard {
        ReplyHeard::Ok => send_kept(head, Bit::Low, 1, kept, buf),
        ReplyHeard::Reply(_) | ReplyHeard::Nothing => nothing(head),
    }
}

// In the order's phase its reply is awaited, and then the order is confirmed.
fn hear_order_reply(head: InitiatorHead, bit: Bit, used: u8, heard: ReplyHeard) -> InitiatorHeadTurn
    ensures { (kept buf : List ℕ) → shown_on result head kept buf ≡ awaiting_reply bit used heard (whole_of head kept) buf }
{
    match heard {
        ReplyHeard::Reply(reply) => {
            let open = Phase::Ready(bit.cycle());
            end(InitiatorAnswer::Confirmed(reply, used), open)
        }
        ReplyHeard::Ok | ReplyHeard::Nothing => nothing(head),
    }
}

// The phase that a submission begins: the opening's if closed, else the order's.
fn first_phase(phase: Phase) -> Phase
    ensures { result ≡ first_phase phase }
{
    match phase {
        Phase::Closed => Phase::Opening(1),
        Phase::Ready(bit) => Phase::Order(bit, 1),
        Phase::Opening(_) | Phase::Order(_, _) => phase,
    }
}

// How much of an order of `len` bytes the first telegram has: an opening nothing.
fn first_len(phase: Phase, len: usize) -> usize
    ensures { result ≡ first_len phase len }
{
    match phase {
        Phase::Ready(_) => len,
        Phase::Closed | Phase::Opening(_) | Phase::Order(_, _) => 0,
    }
}

// What a pending order is reported as where no more is sent of it.
fn given_up(phase: Phase) -> InitiatorAnswer
    ensures { shown_said result ≡ given_up phase }
{
    match phase {
        Phase::Closed | Phase::Ready(_) => InitiatorAnswer::Nothing,
        Phase::Opening(used) => InitiatorAnswer::NotSent(used),
        Phase::Order(_, used) => InitiatorAnswer::Unknown(used),
    }
}

impl InitiatorHead {
    // What a submission says and writes. Refusals 10, 17, 16, in this order.
    #[tactic(auto, using(crate::proofs::CallLaws::submit_short, crate::proofs::HeadLaws::submit_pending, crate::proofs::HeadLaws::submit_wrong, crate::proofs::HeadLaws::submit_begins, crate::proofs::HeadLaws::wrote_shown))]
    fn begin(self, order: &[u8], buf: &mut [u8]) -> InitiatorHeadTurn
        ensures { (kept : List ℕ) → longest ≤ length kept
            → shown_on result self (kept_after result.answer kept (copied_to kept order.now)) buf.new
            ≡ submit_of (whole_of self kept) order.now buf.old }
    {
        if buf.len() < ROOM {
            return refuse(self, Refusal::NoRoom);
        }
        if self.phase.is_pending() {
            return refuse(self, Refusal::OrderPending);
        }
        let len = order.len();
        if wrong_length(len) {
            return refuse(self, Refusal::OrderLength);
        }
        let first = first_phase(self.phase);
        let shown = first_len(self.phase, len);
        send(self, first, len, &order[..shown], buf)
    }

    // The order is kept in the lent bytes once its first telegram is written.
    pub fn submit(self, kept: &mut [u8], order: &[u8], buf: &mut [u8]) -> InitiatorHeadTurn
        ensures { shown_on result self kept.new buf.new ≡ submit_on self kept.old order.now buf.old }
    {
        if kept.len() < LONGEST {
            return refuse(self, Refusal::NoRoom);
        }
        let turn = self.begin(order, buf);
        if was_sent(turn.answer) {
            copy_to_front(order, kept);
        }
        turn
    }

    #[tactic(auto, using(crate::proofs::HeadLaws::wrote_same), unfolding(crate::specs::Calls::silence_of))]
    pub fn silence(self, kept: &[u8], buf: &mut [u8]) -> InitiatorHeadTurn
        ensures { shown_on result self kept.now buf.new ≡ silence_on self kept.now buf.old }
    {
        if kept.len() < LONGEST || buf.len() < ROOM {
            return refuse(self, Refusal::NoRoom);
        }
        let tries = self.tries;
        match self.phase {
            Phase::Closed | Phase::Ready(_) => nothing(self),
            Phase::Opening(used) => {
                if used < tries {
                    send(self, Phase::Opening(used + 1), self.len, b"", buf)
                } else {
                    end(InitiatorAnswer::NotSent(used), Phase::Closed)
                }
            }
            Phase::Order(bit, used) => {
                if used < tries {
                    send_kept(self, bit, used + 1, kept, buf)
                } else {
                    end(InitiatorAnswer::Unknown(used), Phase::Closed)
                }
            }
        }
    }

    #[tactic(auto, unfolding(crate::specs::Calls::hear_of))]
    pub fn hear(self, kept: &[u8], heard: &[u8], buf: &mut [u8]) -> InitiatorHeadTurn
        ensures { shown_on result self kept.now buf.new ≡ hear_on self kept.now heard.now buf.old }
    {
        if kept.len() < LONGEST || buf.len() < ROOM {
            return refuse(self, Refusal::NoRoom);
        }
        let reply = reply_heard(self.link, heard);
        match self.phase {
            Phase::Closed | Phase::Ready(_) => nothing(self),
            Phase::Opening(_) => hear_opening_reply(self, reply, kept, buf),
            Phase::Order(bit, used) => hear_order_reply(self, bit, used, reply),
        }
    }

    #[tactic(auto, using(crate::proofs::HeadLaws::restart_gives_up))]
    pub fn restart(self) -> InitiatorHeadTurn
        ensures { (kept : List ℕ) → shown_on result self kept [] ≡ restart_of (whole_of self kept) }
    {
        end(given_up(self.phase), Phase::Closed)
    }
}
