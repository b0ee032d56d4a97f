// The bus driver lends its one station list and finds it changed: thin calls, each of which moves the list through the by-value method of
// `token_ring`. Promises: `witnessed`, `claimed`, `next_set` and `removed` in `token_ring`'s specs/Rules.antt, as of the methods.
#![tactic(auto)]

ghost use Rattle.std.specs.Prelude.{◌≡◌};
ghost use Rattle.token_ring.specs.Promises.{Gives};
ghost use Rattle.token_ring.specs.Rules.{claimed, next_set, removed, station_answer, witnessed};

use ground::{Address, Refusal};
use token_ring::TokenRing;

pub fn witness_token_pass(ring: &mut TokenRing, sa: Address, da: Address)
    ensures { ring.new ≡ witnessed sa.0 da.0 ring.old }
{
    *ring = ring.witness_token_pass(sa, da);
}

pub fn claim_token(ring: &mut TokenRing)
    ensures { ring.new ≡ claimed ring.old }
{
    *ring = ring.claim_token();
}

pub fn set_next_station(ring: &mut TokenRing, address: Address) -> Result<(), Refusal>
    ensures { Gives (station_answer address.0) (next_set address.0 ring.old) (record { answer = result; after = ring.new }) }
{
    let changed = ring.set_next_station(address);
    *ring = changed.after;
    changed.answer
}

pub fn remove_station(ring: &mut TokenRing, address: Address) -> Result<(), Refusal>
    ensures { Gives (station_answer address.0) (removed address.0 ring.old) (record { answer = result; after = ring.new }) }
{
    let changed = ring.remove_station(address);
    *ring = changed.after;
    changed.answer
}
