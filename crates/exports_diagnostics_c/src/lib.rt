// The calls of `exports_diagnostics` for C: each under its own name, with its own promise, is the call of the library.
#![tactic(auto)]

ghost use Rattle.std.specs.Prelude.{◌≡◌};
ghost use Rattle.exports_diagnostics.specs.Calls.{koy_diagnostics_fill, koy_diagnostics_module, koy_diagnostics_step};

#[unsafe(no_mangle)]
pub extern "C" fn koy_diagnostics_step(
    store: &[u8],
    walked: usize,
    cursor: &mut [usize; 1],
    told: &mut [usize; 9],
) -> u8
    ensures { record { code = result; cursor = cursor.new; told = told.new } ≡ koy_diagnostics_step store.now walked cursor.old told.old }
{
    exports_diagnostics::koy_diagnostics_step(store, walked, cursor, told)
}

#[unsafe(no_mangle)]
pub extern "C" fn koy_diagnostics_fill(
    store: &mut [u8],
    walked: &mut [usize; 1],
    bytes: &[u8],
) -> bool
    ensures { record { answer = result; walked = walked.new; store = store.new } ≡ koy_diagnostics_fill store.old walked.old bytes.now }
{
    exports_diagnostics::koy_diagnostics_fill(store, walked, bytes)
}

#[unsafe(no_mangle)]
pub extern "C" fn koy_diagnostics_module(body: &[u8], module: usize) -> bool
    ensures { result ≡ koy_diagnostics_module body.now «module» }
{
    exports_diagnostics::koy_diagnostics_module(body, module)
}
