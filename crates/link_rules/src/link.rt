use ground::Address;

// The addresses of an order link as one of its ends has them: its own, and its peer's.
#[derive(Clone, Copy, Debug, PartialEq, Eq)]
pub struct Link {
    pub own: Address,
    pub peer: Address,
}
