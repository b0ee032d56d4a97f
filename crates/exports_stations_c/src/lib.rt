// The calls of `exports_stations` for C: each under its own name, with its own promise, is the call of the library.
#![tactic(auto)]

ghost use Rattle.std.specs.Prelude.{◌≡◌};
ghost use Rattle.exports_stations.specs.Calls.{koy_stations_about, koy_stations_claim, koy_stations_first_from, koy_stations_is_active, koy_stations_last_to};
ghost use Rattle.exports_stations.specs.Calls.{koy_stations_new, koy_stations_remove, koy_stations_set_next, koy_stations_witness};

// Refusal 11.
#[unsafe(no_mangle)]
pub extern "C" fn koy_stations_new(state: &mut [u8; 132], own: u8) -> u8
    ensures { record { code = result; state = state.new } ≡ koy_stations_new state.old own }
{
    exports_stations::stations::koy_stations_new(state, own)
}

#[unsafe(no_mangle)]
pub extern "C" fn koy_stations_witness(state: &mut [u8; 132], sa: u8, da: u8)
    ensures { state.new ≡ koy_stations_witness state.old sa da }
{
    exports_stations::stations::koy_stations_witness(state, sa, da);
}

#[unsafe(no_mangle)]
pub extern "C" fn koy_stations_claim(state: &mut [u8; 132])
    ensures { state.new ≡ koy_stations_claim state.old }
{
    exports_stations::stations::koy_stations_claim(state);
}

// Refusal 11.
#[unsafe(no_mangle)]
pub extern "C" fn koy_stations_set_next(state: &mut [u8; 132], address: u8) -> u8
    ensures { record { code = result; state = state.new } ≡ koy_stations_set_next state.old address }
{
    exports_stations::stations::koy_stations_set_next(state, address)
}

// Refusal 11.
#[unsafe(no_mangle)]
pub extern "C" fn koy_stations_remove(state: &mut [u8; 132], address: u8) -> u8
    ensures { record { code = result; state = state.new } ≡ koy_stations_remove state.old address }
{
    exports_stations::stations::koy_stations_remove(state, address)
}

#[unsafe(no_mangle)]
pub extern "C" fn koy_stations_about(state: &[u8; 132], told: &mut [usize; 4])
    ensures { told.new ≡ koy_stations_about state.now }
{
    exports_stations::stations::koy_stations_about(state, told);
}

#[unsafe(no_mangle)]
pub extern "C" fn koy_stations_is_active(state: &[u8; 132], address: u8) -> bool
    ensures { result ≡ koy_stations_is_active state.now address }
{
    exports_stations::stations::koy_stations_is_active(state, address)
}

#[unsafe(no_mangle)]
pub extern "C" fn koy_stations_first_from(state: &[u8; 132], address: u8) -> usize
    ensures { result ≡ koy_stations_first_from state.now address }
{
    exports_stations::stations::koy_stations_first_from(state, address)
}

#[unsafe(no_mangle)]
pub extern "C" fn koy_stations_last_to(state: &[u8; 132], address: u8) -> usize
    ensures { result ≡ koy_stations_last_to state.now address }
{
    exports_stations::stations::koy_stations_last_to(state, address)
}
