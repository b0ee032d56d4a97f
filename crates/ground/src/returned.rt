// What a call returns whose record goes in by value and comes back.

// What the call answers, and its record afterwards.
#[derive(Clone, Copy, Debug, PartialEq, Eq)]
pub struct Returned<A, R> {
    pub answer: A,
    pub after: R,
}
