// The calls of `exports_strict` for C: each under its own name, with its own promise, is the call of the library.
#![tactic(auto)]

ghost use Rattle.std.specs.Prelude.{◌≡◌};
ghost use Rattle.exports_strict.specs.Calls.{koy_read_strict};

// The start is judged here; the rest is the plain call's.
#[unsafe(no_mangle)]
pub extern "C" fn koy_read_strict(bytes: &[u8], told: &mut [usize; 9]) -> u8
    ensures { record { code = result; told = told.new } ≡ koy_read_strict bytes.now told.old }
{
    exports_strict::koy_read_strict(bytes, told)
}
