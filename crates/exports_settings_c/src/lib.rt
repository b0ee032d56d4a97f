// The calls of `exports_settings` for C: each under its own name, with its own promise, is the call of the library.
#![tactic(auto)]

ghost use Rattle.std.specs.Prelude.{◌≡◌};
ghost use Rattle.exports_settings.specs.Calls.{koy_settings_read, koy_settings_write};

// Refusals 20, 18, 19, in this order.
#[unsafe(no_mangle)]
pub extern "C" fn koy_settings_read(text: &[u8], told: &mut [usize; 3]) -> u8
    ensures { record { code = result; told = told.new } ≡ koy_settings_read text.now told.old }
{
    exports_settings::koy_settings_read(text, told)
}

// Refusals 18, 19, 10, in this order.
#[unsafe(no_mangle)]
pub extern "C" fn koy_settings_write(
    own: u8,
    peer: u8,
    tries: u8,
    buf: &mut [u8],
    told: &mut [usize; 1],
) -> u8
    ensures { record { code = result; told = told.new; buffer = buf.new }
        ≡ koy_settings_write own peer tries buf.old told.old }
{
    exports_settings::koy_settings_write(own, peer, tries, buf, told)
}
