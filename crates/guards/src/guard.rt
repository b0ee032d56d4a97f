// A guard after a call, by the code that the call gave. Promises: `specs/Guards.antt`.
ghost use Rattle.std.specs.Prelude.{◌≡◌};
ghost use Rattle.guards.specs.Guards.{next_of, stamp_after, number_after, number_told};

// Codes of the C interface, whose calls answer a byte. A telegram stands at the front of the buffer:
const SENT: u8 = 102;
// an order is handed up:
const HANDED_UP: u8 = 106;

// The number after this one, which is 0 behind the greatest.
fn next(n: usize) -> usize
    ensures { result ≡ next_of n }
{
    n.wrapping_add(1)
}

pub fn stamp_after(code: u8, last: usize, moment: usize) -> usize
    ensures { result ≡ stamp_after code last moment }
{
    if code == SENT { last.max(moment) } else { last }
}

pub fn number_after(code: u8, handed: usize) -> usize
    ensures { result ≡ number_after code handed }
{
    if code == HANDED_UP {
        next(handed)
    } else {
        handed
    }
}

pub fn number_told(code: u8, handed: usize) -> usize
    ensures { result ≡ number_told code handed }
{
    if code == HANDED_UP { next(handed) } else { 0 }
}
