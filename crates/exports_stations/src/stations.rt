// The calls of a station list on lent bytes. Promises: the definitions of specs/Calls.antt that are named like the calls.
ghost use Rattle.std.specs.Prelude.{◌≡◌};
ghost use Rattle.ground.specs.Refusals.{shown};
ghost use Rattle.token_ring.specs.Flags.{shown_found};
ghost use Rattle.exports_stations.specs.Calls.{about_of, crossed, found_number};
ghost use Rattle.exports_stations.specs.Calls.{koy_stations_about, koy_stations_claim, koy_stations_first_from, koy_stations_is_active, koy_stations_last_to};
ghost use Rattle.exports_stations.specs.Calls.{koy_stations_new, koy_stations_remove, koy_stations_set_next, koy_stations_witness};

use crate::bytes::{pack, phase_number, unpack};
use ground::{Address, Refusal, Returned};
use token_ring::TokenRing;

// A refused call left the list as it came, so its bytes are not touched.
#[tactic(auto, using(crate::proofs::CallLaws::refused), unfolding(crate::specs::Calls::crossed))]
fn finish(changed: Returned<Result<(), Refusal>, TokenRing>, state: &mut [u8; 132]) -> u8
    ensures { record { code = result; state = state.new } ≡ crossed state.old (shown changed.answer) changed.after }
{
    match changed.answer {
        Ok(()) => {
            pack(changed.after, state);
            0
        }
        Err(refusal) => refusal.number(),
    }
}

// Refusal 11.
pub fn koy_stations_new(state: &mut [u8; 132], own: u8) -> u8
    ensures { record { code = result; state = state.new } ≡ koy_stations_new state.old own }
{
    finish(TokenRing::new(Address(own)), state)
}

pub fn koy_stations_witness(state: &mut [u8; 132], sa: u8, da: u8)
    ensures { state.new ≡ koy_stations_witness state.old sa da }
{
    let ring = unpack(state);
    pack(ring.witness_token_pass(Address(sa), Address(da)), state);
}

pub fn koy_stations_claim(state: &mut [u8; 132])
    ensures { state.new ≡ koy_stations_claim state.old }
{
    let ring = unpack(state);
    pack(ring.claim_token(), state);
}

// Refusal 11.
pub fn koy_stations_set_next(state: &mut [u8; 132], address: u8) -> u8
    ensures { record { code = result; state = state.new } ≡ koy_stations_set_next state.old address }
{
    let ring = unpack(state);
    finish(ring.set_next_station(Address(address)), state)
}

// Refusal 11.
pub fn koy_stations_remove(state: &mut [u8; 132], address: u8) -> u8
    ensures { record { code = result; state = state.new } ≡ koy_stations_remove state.old address }
{
    let ring = unpack(state);
    finish(ring.remove_station(Address(address)), state)
}

fn about(ring: TokenRing) -> [usize; 4]
    ensures { result ≡ about_of ring }
{
    let phase = phase_number(ring.las_state()) as usize;
    let own = ring.this_station();
    let next = ring.next_station();
    let previous = ring.previous_station();
    [phase, own.0 as usize, next.0 as usize, previous.0 as usize]
}

pub fn koy_stations_about(state: &[u8; 132], told: &mut [usize; 4])
    ensures { told.new ≡ koy_stations_about state.now }
{
    let ring = unpack(state);
    *told = about(ring);
}

pub fn koy_stations_is_active(state: &[u8; 132], address: u8) -> bool
    ensures { result ≡ koy_stations_is_active state.now address }
{
    let ring = unpack(state);
    ring.is_active(Address(address))
}

// A program in another language is told a number: 256 is no address.
fn found_number(found: Option<Address>) -> usize
    ensures { result ≡ found_number (shown_found found) }
{
    match found {
        Some(a) => a.0 as usize,
        None => 256,
    }
}

pub fn koy_stations_first_from(state: &[u8; 132], address: u8) -> usize
    ensures { result ≡ koy_stations_first_from state.now address }
{
    let ring = unpack(state);
    found_number(ring.first_active_from(Address(address)))
}

pub fn koy_stations_last_to(state: &[u8; 132], address: u8) -> usize
    ensures { result ≡ koy_stations_last_to state.now address }
{
    let ring = unpack(state);
    found_number(ring.last_active_to(Address(address)))
}
