// What an answer means for the line and for the tally.
ghost use Rattle.std.specs.Prelude.{◌≡◌};
ghost use Rattle.initiator.specs.Calls.{shown_said as initiatorSaid};
ghost use Rattle.responder.specs.Calls.{shown_said as responderSaid};
ghost use Rattle.stage.specs.Stages.{one_more, sent_by, taken_by, ended_by, carried_out_by};

use crate::state::Tally;
use initiator::InitiatorAnswer;
use responder::ResponderAnswer;

fn one_more(n: u8) -> u8
    ensures { result ≡ one_more n }
{
    n.saturating_add(1)
}

// How many bytes the initiator's call wrote.
// (0 where it wrote none: the length of what is on the line then.)
pub(crate) fn initiator_wrote(answer: InitiatorAnswer) -> usize
    ensures { result ≡ sent_by (initiatorSaid answer) }
{
    match answer {
        InitiatorAnswer::Sent(len) => len,
        _ => 0,
    }
}

// How many bytes the responder's call wrote.
// (0 as above.)
pub(crate) fn responder_wrote(answer: ResponderAnswer) -> usize
    ensures { result ≡ sent_by (responderSaid answer) }
{
    match answer {
        ResponderAnswer::Sent(len) => len,
        _ => 0,
    }
}

// A submission that wrote something took the order.
pub(crate) fn count_order(wrote: usize, mut tally: Tally) -> Tally
    ensures { result ≡ taken_by wrote tally }
{
    if 0 < wrote {
        tally.orders = one_more(tally.orders);
    }
    tally
}

// An order's outcome.
pub(crate) fn count_outcome(answer: InitiatorAnswer, tally: Tally) -> Tally
    ensures { result ≡ ended_by (initiatorSaid answer) tally }
{
    match answer {
        InitiatorAnswer::Confirmed(_, _) => Tally {
            confirmed: one_more(tally.confirmed),
            ..tally
        },
        InitiatorAnswer::NotSent(_) => Tally {
            not_sent: one_more(tally.not_sent),
            ..tally
        },
        InitiatorAnswer::Unknown(_) => Tally {
            unknown: one_more(tally.unknown),
            ..tally
        },
        InitiatorAnswer::Sent(_) | InitiatorAnswer::Nothing | InitiatorAnswer::Refused(_) => tally,
    }
}

pub(crate) fn count_hand_up(answer: ResponderAnswer, tally: Tally) -> Tally
    ensures { result ≡ carried_out_by (responderSaid answer) tally }
{
    match answer {
        ResponderAnswer::HandUp(_) => Tally {
            carried_out: one_more(tally.carried_out),
            ..tally
        },
        ResponderAnswer::Sent(_) | ResponderAnswer::Nothing | ResponderAnswer::Refused(_) => tally,
    }
}
