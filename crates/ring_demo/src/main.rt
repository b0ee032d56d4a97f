// A caller of the station list, with a list in a local of its own: document 01's first sample, played, checked and printed. The list is changed
// as a bus driver changes it, through the calls that it is lent to. What is checked is proved from the promises of the calls alone.
#![tactic(auto)]

ghost use Rattle.std.specs.Prelude.{◌≡◌, map};
ghost use Rattle.ground.specs.Refusals.{shown};
ghost use Rattle.token_ring.specs.Passes.{after};
ghost use Rattle.token_ring.specs.Rules.{claimed, station_answer};
ghost use Rattle.ring_demo.specs.Played.{pass, played, played_on};

use ground::{Address, Refusal, answer_number};
use std::io;
use token_ring::TokenRing;

// The list is lent to the driver's call, pass by pass, and found changed.
#[tactic(auto, using(crate::proofs::PlayedLaws::one_pass_more))]
fn heard(mut ring: TokenRing, passes: &[(u8, u8)]) -> TokenRing
    ensures { result ≡ after (map pass passes.now) ring }
{
    for &(sa, da) in passes {
        ring_driver::witness_token_pass(&mut ring, Address(sa), Address(da));
    }
    ring
}

fn claim(mut ring: TokenRing) -> TokenRing
    ensures { result ≡ claimed ring }
{
    ring_driver::claim_token(&mut ring);
    ring
}

// Own 7: 9-2, 2-5, 5-9, 9-2.
fn discovered() -> TokenRing
    ensures { result ≡ played }
{
    heard(
        TokenRing::new(Address(7)).after,
        &[(9, 2), (2, 5), (5, 9), (9, 2)],
    )
}

// Then 2-5, 5-9, 9-2.
fn verified(ring: TokenRing) -> TokenRing
    requires { ring ≡ played }
    ensures { result ≡ played_on }
{
    heard(ring, &[(2, 5), (5, 9), (9, 2)])
}

#[tactic(auto, using(crate::proofs::PlayedLaws::next_is, crate::proofs::PlayedLaws::previous_is, crate::proofs::PlayedLaws::not_ready))]
fn check_neighbours(ring: TokenRing)
    requires { ring ≡ played }
{
    check::expect(ring.next_station() == Address(9));
    check::expect(ring.previous_station() == Address(5));
    check::expect(!ring.ready_for_ring());
}

// Of a call that may refuse, the answer alone is asked for; the list that was lent is dropped.
fn remove(mut ring: TokenRing, address: Address) -> Result<(), Refusal>
    ensures { shown result ≡ station_answer address.0 }
{
    ring_driver::remove_station(&mut ring, address)
}

fn set_next(mut ring: TokenRing, address: Address) -> Result<(), Refusal>
    ensures { shown result ≡ station_answer address.0 }
{
    ring_driver::set_next_station(&mut ring, address)
}

fn check_refusals(ring: TokenRing) {
    let removed = remove(ring, Address(126));
    check::expect(answer_number(removed) == 11);
    let set = set_next(ring, Address(126));
    check::expect(answer_number(set) == 11);
}

#[tactic(auto, unfolding(token_ring::specs::Rules::in_phase))]
fn check_claim(ring: TokenRing) {
    check::expect(claim(ring).ready_for_ring());
}

fn print_stations(rt: &impl Print, ring: TokenRing) -> io::Result<()> {
    let mut from = 0;
    while let Some(station) = ring.first_active_from(Address(from)) {
        let at = station.0;
        println!(rt; "{at}")?;
        from = at + 1;
    }
    Ok(())
}

#[tactic(auto, using(crate::proofs::PlayedLaws::ready))]
fn main(rt: HostRuntime) -> io::Result<()> {
    let ring = discovered();
    check_neighbours(ring);
    check_refusals(ring);
    check_claim(ring);
    let valid = verified(ring);
    check::expect(valid.ready_for_ring());
    print_stations(&rt, valid)
}
