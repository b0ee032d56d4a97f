// The station list out of 132 lent bytes and into them. Promises: `stations_of` and `stations_bytes` in specs/Bytes.antt.
ghost use Rattle.std.specs.Prelude.{◌≡◌, ◌++◌, map, ◌+◌, drop, length};
ghost use Rattle.exports_stations.specs.Bytes.{flag_of, phase_number, phase_of, stations_of, stations_bytes};

use ground::Address;
use token_ring::{LasState, TokenRing};

pub(crate) fn phase_number(phase: LasState) -> u8
    ensures { result ≡ phase_number phase }
{
    phase as u8
}

// Any byte of a lent record is answered (the C interface), so no `TryFrom`.
#[tactic(auto, unfolding(crate::specs::Bytes::phase_of))]
fn phase_of(number: u8) -> LasState
    ensures { result ≡ phase_of number }
{
    match number {
        1 => LasState::Discovery,
        2 => LasState::Verification,
        3 => LasState::Valid,
        _ => LasState::Uninitialized,
    }
}

fn flags_of(bytes: &[u8; 132]) -> [bool; 128]
    ensures { result ≡ map flag_of (drop 4 bytes.now) }
{
    let mut flags = [false; 128];
    for (i, &byte) in bytes[4..].iter().enumerate() {
        flags[i] = 0 < byte;
    }
    flags
}

pub(crate) fn unpack(bytes: &[u8; 132]) -> TokenRing
    ensures { result ≡ stations_of bytes.now }
{
    TokenRing::from_parts(
        flags_of(bytes),
        phase_of(bytes[0]),
        Address(bytes[1]),
        Address(bytes[2]),
        Address(bytes[3]),
    )
}

pub(crate) fn pack(ring: TokenRing, state: &mut [u8; 132])
    ensures { state.new ≡ stations_bytes ring }
{
    state[0] = phase_number(ring.las_state());
    state[1] = ring.this_station().0;
    state[2] = ring.next_station().0;
    state[3] = ring.previous_station().0;
    for (i, &on) in ring.active_stations().iter().enumerate() {
        state[4 + i] = on as u8;
    }
}
