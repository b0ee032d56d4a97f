// The record of a responder, how one is made, and what may be asked of it. Promises: `specs/Records.antt`.
ghost use Rattle.std.specs.Prelude.{◌≡◌, Err};
ghost use Rattle.link_rules.specs.Rules.{no_link};
ghost use Rattle.responder.specs.Records.{blank_of, shown_made, made_of};

use ground::{Address, Refusal, Returned};
use link_rules::{Link, wrong_addresses};
use responder_row::Row;

#[derive(Clone, Copy)]
pub struct Responder {
    pub(crate) link: Link,
    pub(crate) row: Row,
}

pub(crate) fn blank(link: Link) -> Responder
    ensures { result ≡ blank_of link }
{
    Responder {
        link,
        row: Row::blank(),
    }
}

// What stands beside a refusal to make a link: its addresses are no station's, so that it writes nothing and hears nothing.
fn not_made() -> Returned<Result<(), Refusal>, Responder>
    ensures { result ≡ record { answer = Err Refusal.LinkAddresses; after = blank_of no_link } }
{
    Returned {
        answer: Err(Refusal::LinkAddresses),
        after: blank(Link {
            own: Address(255),
            peer: Address(255),
        }),
    }
}

impl Responder {
    // Refusal 18.
    #[tactic(auto, unfolding(crate::specs::Records::made_of))]
    pub fn new(link: Link) -> Returned<Result<(), Refusal>, Responder>
        ensures { shown_made result ≡ made_of link }
    {
        if wrong_addresses(link) {
            return not_made();
        }
        Returned {
            answer: Ok(()),
            after: blank(link),
        }
    }

    // The record of these parts, each as it is. Every call answers every record; but one of other parts than those of a record that the
    // calls made is none of theirs, and demand 3 holds of no such record.
    pub fn from_parts(link: Link, row: Row) -> Responder
        ensures { result ≡ record { link = link; row = row } }
    {
        Responder { link, row }
    }

    pub fn own(self) -> Address
        ensures { result ≡ self.link.own }
    {
        self.link.own
    }

    pub fn peer(self) -> Address
        ensures { result ≡ self.link.peer }
    {
        self.link.peer
    }

    // What it remembers of its initiator.
    pub fn row(self) -> Row
        ensures { result ≡ self.row }
    {
        self.row
    }
}
