// The station list: profirust's `TokenRing`. It goes in by value and comes back. Promises: `made`, `witnessed`, `claimed`, `next_set` and `removed` in
// specs/Rules.antt.
ghost use Rattle.std.specs.Prelude.{◌≡◌, suc, ◌<◌, ◌≤◌};
ghost use Rattle.ground.specs.Pick.{if};
ghost use Rattle.token_ring.specs.Flags.{active, lowest_from, highest_below, shown_found};
ghost use Rattle.token_ring.specs.Phases.{is_valid};
ghost use Rattle.token_ring.specs.Leaves.{Hears};
ghost use Rattle.token_ring.specs.Promises.{Gives};
ghost use Rattle.token_ring.specs.Rules.{claimed, effect_of, fresh, in_phase, made, next_set, removed, station_answer, with_flags, witnessed, wrap};

use crate::flags::{highest_below, lowest_from, mark, next_of, pass, previous_of, verify};
use crate::las_state::LasState;
use ground::{Address, Refusal, Returned};

// Management of the token ring from the station's point of view.
#[derive(Clone, Copy)]
pub struct TokenRing {
    // `LAS` (List of Active Stations).
    active_stations: [bool; 128],
    // Status of the `LAS`.
    las_state: LasState,
    // `TS` (This Station).
    this_station: Address,
    // `NS` (Next Station): who we will forward the token to once we release it. There is always one: where no other active station is
    // known, we are our own.
    next_station: Address,
    // `PS` (Previous Station): who we will receive the token from. There is always one: where no other active station is known, we are our
    // own.
    previous_station: Address,
}

// The list before anything was heard.
#[tactic(auto, unfolding(crate::specs::Rules::fresh))]
fn fresh_ring(own: Address) -> TokenRing
    requires { own.0 < 128 }
    ensures { result ≡ fresh own.0 }
{
    let mut active_stations = [false; 128];
    // Mark ourselves in the list of active stations.
    active_stations[own.0 as usize] = true;
    TokenRing {
        active_stations,
        las_state: LasState::Uninitialized,
        this_station: own,
        next_station: own,
        previous_station: own,
    }
}

// What a witnessed pass did: the phase after it, and whether the flags were updated.
// (A flag beside the phase and no `Option`: each pass has both.)
#[derive(Clone, Copy)]
struct Heard {
    state: LasState,
    updated: bool,
}

// The phase after a pass, where a wrap decides it.
fn after_wrap(sa: usize, da: usize, wrapped: LasState, same: LasState) -> LasState
    ensures { result ≡ if (wrap sa da) wrapped same }
{
    if da <= sa { wrapped } else { same }
}

#[tactic(auto, unfolding(crate::specs::Rules::effect_of))]
fn hear_verification(flags: &mut [bool; 128], sa: usize, da: usize) -> Heard
    requires { (sa < 128) × (da < 128) }
    ensures { Hears (effect_of LasState.Verification sa da flags.old) sa da flags.old result flags.new }
{
    if verify(flags, sa, da) {
        return Heard {
            state: after_wrap(sa, da, LasState::Valid, LasState::Verification),
            updated: false,
        };
    }
    // If verification fails, restart discovery.
    pass(flags, sa, da);
    Heard {
        state: LasState::Discovery,
        updated: true,
    }
}

// Works on the lent flags and tells what it did, so that the list around them is put together in one place and copied once.
// (That `sa` and `da` are below 128 is asked here and in the two functions that this comes to: a type for such places would be longer.)
#[tactic(auto, unfolding(crate::specs::Rules::effect_of))]
fn hear(flags: &mut [bool; 128], state: LasState, sa: usize, da: usize) -> Heard
    requires { (sa < 128) × (da < 128) }
    ensures { Hears (effect_of state sa da flags.old) sa da flags.old result flags.new }
{
    match state {
        // If we see the wrap-around, start discovery.
        LasState::Uninitialized => Heard {
            state: after_wrap(sa, da, LasState::Discovery, LasState::Uninitialized),
            updated: false,
        },
        LasState::Discovery => {
            pass(flags, sa, da);
            Heard {
                state: after_wrap(sa, da, LasState::Verification, LasState::Discovery),
                updated: true,
            }
        }
        LasState::Verification => hear_verification(flags, sa, da),
        LasState::Valid => {
            pass(flags, sa, da);
            Heard {
                state: LasState::Valid,
                updated: true,
            }
        }
    }
}

impl TokenRing {
    // Beside a refusal stands the list of address 0, so that every list that comes from here, and what the calls make of it, has an own
    // address up to 125.
    #[tactic(auto, using(crate::proofs::RuleLaws::answers_11, crate::proofs::RuleLaws::answers_done, crate::proofs::RuleLaws::made_fresh, crate::proofs::RuleLaws::made_refused))]
    pub fn new(own: Address) -> Returned<Result<(), Refusal>, TokenRing>
        ensures { Gives (station_answer own.0) (made own.0) result }
    {
        if 125 < own.0 {
            return Returned {
                answer: Err(Refusal::NotAStation),
                after: fresh_ring(Address(0)),
            };
        }
        Returned {
            answer: Ok(()),
            after: fresh_ring(own),
        }
    }

    // The list of these parts, each as it is. With `active_stations` and the questions below it takes a list through a form that another
    // language can hold; every call answers every list. With other parts than those of a list that the calls made it is none of theirs,
    // and what is said of those (`Sound`, demand 2) does not hold of it.
    pub fn from_parts(
        active_stations: [bool; 128],
        las_state: LasState,
        this_station: Address,
        next_station: Address,
        previous_station: Address,
    ) -> TokenRing
        ensures { result ≡ record { active_stations = active_stations; las_state = las_state; this_station = this_station; next_station = next_station; previous_station = previous_station } }
    {
        TokenRing {
            active_stations,
            las_state,
            this_station,
            next_station,
            previous_station,
        }
    }

    pub fn active_stations(self) -> [bool; 128]
        ensures { result ≡ self.active_stations }
    {
        self.active_stations
    }

    pub fn ready_for_ring(self) -> bool
        ensures { result ≡ is_valid self.las_state }
    {
        self.las_state.is_valid()
    }

    pub fn this_station(self) -> Address
        ensures { result ≡ self.this_station }
    {
        self.this_station
    }

    pub fn next_station(self) -> Address
        ensures { result ≡ self.next_station }
    {
        self.next_station
    }

    pub fn previous_station(self) -> Address
        ensures { result ≡ self.previous_station }
    {
        self.previous_station
    }

    pub fn las_state(self) -> LasState
        ensures { result ≡ self.las_state }
    {
        self.las_state
    }

    pub fn is_active(self, address: Address) -> bool
        ensures { result ≡ active self.active_stations address.0 }
    {
        let at = address.0 as usize;
        at < 128 && self.active_stations[at]
    }

    // The first active station from `address` upward. Asked again from the address after the one found, it goes through the active stations
    // as the Rust's `iter_active_stations` does.
    pub fn first_active_from(self, address: Address) -> Option<Address>
        ensures { shown_found result ≡ lowest_from address.0 self.active_stations }
    {
        lowest_from(&self.active_stations, address.0 as usize)
    }

    // The last active station up to `address`: the same backward.
    pub fn last_active_to(self, address: Address) -> Option<Address>
        ensures { shown_found result ≡ highest_below (suc address.0) self.active_stations }
    {
        highest_below(&self.active_stations, address.0 as usize + 1)
    }

    // Next and previous as the flags give them.
    #[tactic(auto, unfolding(crate::specs::Rules::with_flags))]
    fn find_neighbours(&mut self)
        ensures { self.new ≡ with_flags self.old.active_stations self.old }
    {
        let own = self.this_station.0;
        self.next_station = next_of(&self.active_stations, own);
        self.previous_station = previous_of(&self.active_stations, own);
    }

    #[tactic(auto, using(crate::proofs::RuleLaws::witnessed_ignored, crate::proofs::RuleLaws::witnessed_effect), unfolding(crate::specs::Rules::effected, crate::specs::Rules::in_phase, crate::specs::Rules::updated, crate::specs::Rules::with_flags))]
    pub fn witness_token_pass(mut self, sa: Address, da: Address) -> TokenRing
        ensures { result ≡ witnessed sa.0 da.0 self }
    {
        if 125 < sa.0 || 125 < da.0 {
            return self;
        }
        let heard = hear(
            &mut self.active_stations,
            self.las_state,
            sa.0 as usize,
            da.0 as usize,
        );
        self.las_state = heard.state;
        if heard.updated {
            self.find_neighbours();
        }
        self
    }

    #[tactic(auto, unfolding(crate::specs::Rules::in_phase))]
    pub fn claim_token(mut self) -> TokenRing
        ensures { result ≡ claimed self }
    {
        self.las_state = LasState::Valid;
        self
    }

    #[tactic(auto, using(crate::proofs::RuleLaws::answers_11, crate::proofs::RuleLaws::answers_done, crate::proofs::RuleLaws::set_done, crate::proofs::RuleLaws::set_refused), unfolding(crate::specs::Rules::with_flags))]
    pub fn set_next_station(mut self, address: Address) -> Returned<Result<(), Refusal>, TokenRing>
        ensures { Gives (station_answer address.0) (next_set address.0 self) result }
    {
        let next = address.0;
        if 125 < next {
            return Returned {
                answer: Err(Refusal::NotAStation),
                after: self,
            };
        }
        mark(&mut self.active_stations, next as usize, true);
        let own = self.this_station.0;
        pass(&mut self.active_stations, own as usize, next as usize);
        self.find_neighbours();
        Returned {
            answer: Ok(()),
            after: self,
        }
    }

    #[tactic(auto, using(crate::proofs::RuleLaws::answers_11, crate::proofs::RuleLaws::answers_done, crate::proofs::RuleLaws::remove_done, crate::proofs::RuleLaws::remove_refused_lem), unfolding(crate::specs::Rules::with_flags))]
    pub fn remove_station(mut self, address: Address) -> Returned<Result<(), Refusal>, TokenRing>
        ensures { Gives (station_answer address.0) (removed address.0 self) result }
    {
        let gone = address.0;
        if 125 < gone {
            return Returned {
                answer: Err(Refusal::NotAStation),
                after: self,
            };
        }
        mark(&mut self.active_stations, gone as usize, false);
        self.find_neighbours();
        Returned {
            answer: Ok(()),
            after: self,
        }
    }
}
