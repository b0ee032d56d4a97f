// The bench's commands on the link. The bench keeps one initiator and one responder; the names of an end's commands begin with its
// letter, and no other name of the bench does.
#![tactic(auto)]

ghost use Rattle.std.specs.Prelude.{◌≡◌};

mod initiator_end;
mod parts;
mod responder_end;

use initiator::Initiator;
use line_text::answers::Out;
use line_text::words::{Fault, Words};
use responder::Responder;

// The two ends that the bench keeps, where they are made.
#[derive(Clone, Copy)]
pub struct Ends {
    initiator: Option<Initiator>,
    responder: Option<Responder>,
}

pub fn no_ends() -> Ends
    ensures initiator { result.initiator ≡ None }
    ensures responder { result.responder ≡ None }
{
    Ends {
        initiator: None,
        responder: None,
    }
}

// What the command of this name does with its words, or nothing, since it is none of these names.
pub fn play(
    ends: &mut Ends,
    name: &[u8],
    words: Words,
    out: &mut Out,
) -> Option<Result<(), Fault>> {
    match name {
        [b'I', b'.', name @ ..] => initiator_end::answer(name, &mut ends.initiator, words, out),
        [b'R', b'.', name @ ..] => responder_end::answer(name, &mut ends.responder, words, out),
        _ => None,
    }
}
