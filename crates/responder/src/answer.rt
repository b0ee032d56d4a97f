use ground::{Part, Refusal};

// What a call says.
// (No `Result`: a refusal is one of the things that document 01 lets a call say, and none of the others is its one success.)
#[derive(Clone, Copy, Debug, PartialEq, Eq)]
pub enum ResponderAnswer {
    // A telegram of so many bytes stands at the front of the buffer.
    Sent(usize),
    // The order is this part of the heard bytes. Handing it up is its carrying out; the application then answers once.
    HandUp(Part),
    Nothing,
    Refused(Refusal),
}
