// The settings text for programs in other languages: enums become numbers here. Promises: `koy_settings_read`, `koy_settings_write` in
// specs/Calls.antt.
#![tactic(auto)]

ghost use Rattle.std.specs.Prelude.{◌≡◌, List, [], ◌∷◌, ℕ};
ghost use Rattle.settings.specs.Writing.{shown_written};
ghost use Rattle.exports_settings.specs.Calls.{koy_settings_read, koy_settings_write, write_call};

use ground::{Address, Refusal};
use settings::{Settings, read_settings, write_settings};

// The numbers of the settings stand in an array: the C interface.
fn told_of(settings: Settings) -> [usize; 3]
    ensures { result ≡ settings.own.0 ∷ settings.peer.0 ∷ settings.tries ∷ [] }
{
    let own = settings.own.0 as usize;
    let peer = settings.peer.0 as usize;
    let tries = settings.tries as usize;
    [own, peer, tries]
}

// Refusals 20, 18, 19, in this order.
pub fn koy_settings_read(text: &[u8], told: &mut [usize; 3]) -> u8
    ensures { record { code = result; told = told.new } ≡ koy_settings_read text.now told.old }
{
    match read_settings(text) {
        Ok(settings) => {
            *told = told_of(settings);
            0
        }
        Err(refusal) => refusal.number(),
    }
}

fn tell(written: Result<usize, Refusal>, told: &mut [usize; 1]) -> u8
    ensures { (buf : List ℕ) → record { code = result; told = told.new; buffer = buf } ≡ write_call (shown_written written) told.old buf }
{
    match written {
        Ok(n) => {
            *told = [n];
            0
        }
        Err(refusal) => refusal.number(),
    }
}

// Refusals 18, 19, 10, in this order.
pub fn koy_settings_write(own: u8, peer: u8, tries: u8, buf: &mut [u8], told: &mut [usize; 1]) -> u8
    ensures { record { code = result; told = told.new; buffer = buf.new }
        ≡ koy_settings_write own peer tries buf.old told.old }
{
    let settings = Settings {
        own: Address(own),
        peer: Address(peer),
        tries,
    };
    tell(write_settings(settings, buf), told)
}
