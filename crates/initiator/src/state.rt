// The record of an initiator, how one is made, and what may be asked of it. Promises: `specs/Records.antt`.
ghost use Rattle.std.specs.Prelude.{◌≡◌, Err};
ghost use Rattle.link_rules.specs.Rules.{no_link, default_tries};
ghost use Rattle.initiator.specs.Records.{closed_of, shown_made, made_of, is_pending, used_of, bit_of, len_of};

use codes::FrameCountBit;
use ground::{Address, Refusal, Returned};
use link_rules::{DEFAULT_TRIES, LONGEST, Link, wrong_addresses, wrong_tries};
use link_telegrams::Bit;

// What the link is about. An order is pending in the last two.
#[derive(Clone, Copy, Debug, PartialEq, Eq)]
pub enum Phase {
    // Nothing pending, closed with First.
    Closed,
    // Nothing pending, open: the bit that the next order takes.
    Ready(Bit),
    // The opening's phase, and the telegrams written in it.
    Opening(u8),
    // The order's phase: the order's bit, and the telegrams written in it.
    Order(Bit, u8),
}

#[derive(Clone, Copy)]
pub struct Initiator {
    pub(crate) link: Link,
    pub(crate) tries: u8,
    pub(crate) phase: Phase,
    // The pending order is the first `len` bytes. An outcome sets `len` to 0 and leaves the array. (No `Vec`: the library has no heap, and
    // the record is copied.)
    pub(crate) order: [u8; 246],
    pub(crate) len: usize,
}

fn closed(link: Link, tries: u8) -> Initiator
    ensures { result ≡ closed_of link tries }
{
    Initiator {
        link,
        tries,
        phase: Phase::Closed,
        order: [0; 246],
        len: 0,
    }
}

// What stands beside a refusal to make a link: its addresses are no station's, so that it writes nothing and hears nothing.
fn not_made(refusal: Refusal) -> Returned<Result<(), Refusal>, Initiator>
    ensures { result ≡ record { answer = Err refusal; after = closed_of no_link 1 } }
{
    let none = Link {
        own: Address(255),
        peer: Address(255),
    };
    Returned {
        answer: Err(refusal),
        after: closed(none, 1),
    }
}

impl Initiator {
    // Refusals 18 and 19, in this order.
    #[tactic(auto, unfolding(crate::specs::Records::made_of))]
    pub fn new(link: Link, tries: u8) -> Returned<Result<(), Refusal>, Initiator>
        ensures { shown_made result ≡ made_of link tries }
    {
        if wrong_addresses(link) {
            return not_made(Refusal::LinkAddresses);
        }
        if wrong_tries(tries) {
            return not_made(Refusal::Tries);
        }
        Returned {
            answer: Ok(()),
            after: closed(link, tries),
        }
    }

    pub fn with_default_tries(link: Link) -> Returned<Result<(), Refusal>, Initiator>
        ensures { shown_made result ≡ made_of link default_tries }
    {
        Initiator::new(link, DEFAULT_TRIES)
    }

    // The pending order is the first `order_len` bytes of this.
    pub fn order(self) -> [u8; 246]
        ensures { result ≡ self.order }
    {
        self.order
    }

    pub fn own(self) -> Address
        ensures { result ≡ self.link.own }
    {
        self.link.own
    }

    pub fn peer(self) -> Address
        ensures { result ≡ self.link.peer }
    {
        self.link.peer
    }

    pub fn tries(self) -> u8
        ensures { result ≡ self.tries }
    {
        self.tries
    }

    pub fn phase(self) -> Phase
        ensures { result ≡ self.phase }
    {
        self.phase
    }

    // How many bytes the pending order has; 0 where none is pending, since an outcome sets the length to 0.
    pub fn order_len(self) -> usize
        ensures { result ≡ len_of self }
    {
        self.len.min(LONGEST)
    }
}

impl Phase {
    pub fn is_pending(self) -> bool
        ensures { result ≡ is_pending self }
    {
        matches!(self, Phase::Opening(_) | Phase::Order(_, _))
    }

    // The telegrams written in the phase.
    pub fn tries_used(self) -> u8
        ensures { result ≡ used_of self }
    {
        match self {
            Phase::Closed | Phase::Ready(_) => 0,
            Phase::Opening(used) | Phase::Order(_, used) => used,
        }
    }

    // The frame count bit that the link is at: First while it is closed or opening.
    pub fn frame_count_bit(self) -> FrameCountBit
        ensures { result ≡ bit_of self }
    {
        match self {
            Phase::Closed | Phase::Opening(_) => FrameCountBit::First,
            Phase::Ready(bit) | Phase::Order(bit, _) => bit.frame_count_bit(),
        }
    }
}
