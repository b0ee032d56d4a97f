// The phases of a station list. Promise: `is_valid` in specs/Phases.antt.
ghost use Rattle.std.specs.Prelude.{◌≡◌};
ghost use Rattle.token_ring.specs.Phases.{is_valid};

// Status of the `LAS` (List of Active Stations), with its number, which a program in another language is told.
#[derive(Clone, Copy, Debug, PartialEq, Eq)]
pub enum LasState {
    // We are waiting for the first token rotation to then enter discovery.
    Uninitialized = 0,
    // We are listening to the first token rotation to discover all active stations.
    Discovery = 1,
    // We are listening to the second token rotation to verify correctness of the LAS.
    Verification = 2,
    // The LAS has been verified and is valid. It will be updated live from now on.
    Valid = 3,
}

impl LasState {
    // Whether the LAS is valid.
    pub fn is_valid(self) -> bool
        ensures { result ≡ is_valid self }
    {
        matches!(self, LasState::Valid)
    }
}
