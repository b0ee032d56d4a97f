// What an order link asks of its two addresses, of its tries, of an order's length and of a lent buffer. Both ends and the settings
// text go by it. Promises: `specs/Rules.antt`.
#![tactic(auto)]

pub mod link;

ghost use Rattle.std.specs.Prelude.{◌≡◌};
ghost use Rattle.link_rules.specs.Rules.{wrong_addresses, wrong_tries, wrong_length};

pub use link::Link;

// A link call that may write wants a buffer of this many bytes.
pub const ROOM: usize = 255;

// The longest order, and the longest reply.
pub const LONGEST: usize = 246;

pub const MOST_TRIES: u8 = 8;

// A link made without a stated number of tries takes this many.
pub const DEFAULT_TRIES: u8 = 4;

// Whether refusal 18 is due.
#[tactic(auto, unfolding(crate::specs::Rules::wrong_addresses))]
pub fn wrong_addresses(link: Link) -> bool
    ensures { result ≡ wrong_addresses link }
{
    125 < link.own.0 || 125 < link.peer.0 || link.own == link.peer
}

// Whether refusal 19 is due.
#[tactic(auto, unfolding(crate::specs::Rules::wrong_tries))]
pub fn wrong_tries(tries: u8) -> bool
    ensures { result ≡ wrong_tries tries }
{
    tries < 1 || MOST_TRIES < tries
}

// Whether an order of so many bytes is none: refusal 16 at the initiator, and not handed up at the responder.
#[tactic(auto, unfolding(crate::specs::Rules::wrong_length))]
pub fn wrong_length(len: usize) -> bool
    ensures { result ≡ wrong_length len }
{
    len == 0 || LONGEST < len
}
