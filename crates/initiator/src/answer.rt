use ground::{Part, Refusal};

// What a call says. An outcome reports the tries of its last phase: the telegrams written in it.
// (No `Result`: a refusal is one of the things that document 01 lets a call say, and none of the others is its one success.)
#[derive(Clone, Copy, Debug, PartialEq, Eq)]
pub enum InitiatorAnswer {
    // A telegram of so many bytes stands at the front of the buffer.
    Sent(usize),
    // The pending order was carried out; its reply is this part of the heard bytes.
    Confirmed(Part, u8),
    // The pending order was never carried out.
    NotSent(u8),
    // The pending order was carried out at most once.
    Unknown(u8),
    Nothing,
    Refused(Refusal),
}
