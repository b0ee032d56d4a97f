ghost use Rattle.std.specs.Prelude.{◌≡◌};
ghost use Rattle.stage.specs.Stages.{fresh, fresh_with, no_tally, anew_of, responder_anew_of, restarted_of, lost_of};

use ground::Address;
use initiator::Initiator;
use link_rules::Link;
use responder::Responder;

// What has happened so far. A number stops at 255.
#[derive(Clone, Copy, Debug, PartialEq, Eq)]
pub struct Tally {
    // Orders that a submission took.
    pub orders: u8,
    pub confirmed: u8,
    pub not_sent: u8,
    pub unknown: u8,
    // Orders that the responder handed up, which is their carrying out.
    pub carried_out: u8,
}

#[derive(Clone, Copy)]
pub struct Stage {
    pub(crate) initiator: Initiator,
    pub(crate) responder: Responder,
    // The telegram on the line is the first `len` bytes; none is there where `len` is 0. (No `Vec`: a stage is copied, as the ends are.)
    pub(crate) line: [u8; 255],
    pub(crate) len: usize,
    pub(crate) tally: Tally,
}

// The head end's station and the cabinet's.
const HEAD_END: Address = Address(2);

const CABINET: Address = Address(5);

// The link of every scene, as its initiator has it.
const LINK: Link = Link {
    own: HEAD_END,
    peer: CABINET,
};

fn no_tally() -> Tally
    ensures { result ≡ no_tally }
{
    Tally {
        orders: 0,
        confirmed: 0,
        not_sent: 0,
        unknown: 0,
        carried_out: 0,
    }
}

#[tactic(auto, unfolding(initiator::specs::Records::made_of, link_rules::specs::Rules::wrong_addresses, link_rules::specs::Rules::wrong_tries))]
fn new_initiator() -> Initiator
    ensures { result ≡ fresh.initiator }
{
    Initiator::with_default_tries(LINK).after
}

#[tactic(auto, unfolding(responder::specs::Records::made_of, link_rules::specs::Rules::wrong_addresses))]
fn new_responder() -> Responder
    ensures { result ≡ fresh.responder }
{
    let link = Link {
        own: CABINET,
        peer: HEAD_END,
    };
    Responder::new(link).after
}

impl Stage {
    // Two ends that name each other, made with the default number of tries, and an idle line.
    pub fn new() -> Stage
        ensures { result ≡ fresh }
    {
        Stage {
            initiator: new_initiator(),
            responder: new_responder(),
            line: [0; 255],
            len: 0,
            tally: no_tally(),
        }
    }

    // The same with another number of tries, from 1 to 8; with any other the initiator is one that writes and hears nothing.
    pub fn with_tries(tries: u8) -> Stage
        ensures { result ≡ fresh_with tries }
    {
        Stage {
            initiator: Initiator::new(LINK, tries).after,
            ..Stage::new()
        }
    }

    pub fn tally(self) -> Tally
        ensures { result ≡ self.tally }
    {
        self.tally
    }

    // What is on the line stays there while an end is made anew or restarts, as it does on the line of demand 3.

    // The initiator loses its record and starts with one made anew.
    pub fn make_initiator_anew(self) -> Stage
        ensures { result ≡ anew_of self }
    {
        Stage {
            initiator: new_initiator(),
            ..self
        }
    }

    // The responder loses its record and starts with one made anew.
    pub fn make_responder_anew(self) -> Stage
        ensures { result ≡ responder_anew_of self }
    {
        Stage {
            responder: new_responder(),
            ..self
        }
    }

    pub fn restart_responder(self) -> Stage
        ensures { result ≡ restarted_of self }
    {
        Stage {
            responder: self.responder.restart(),
            ..self
        }
    }

    // The line loses the telegram on it.
    pub fn lose(self) -> Stage
        ensures { result ≡ lost_of self }
    {
        Stage { len: 0, ..self }
    }
}
