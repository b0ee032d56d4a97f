// Bytes as hexadecimal digits, laid down at a place. Promise: `hex_of` in specs/Hex.antt.
ghost use Rattle.std.specs.Prelude.{◌<◌, ◌≡◌};
ghost use Rattle.text.specs.Hex.{hex_digit, hex_byte, hex_of};
ghost use Rattle.text.specs.Placed.{Placed};

use crate::place::put_byte;

#[tactic(auto, unfolding(crate::specs::Hex::hex_digit))]
fn hex_digit(d: u8) -> u8
    requires { d < 16 }
    ensures { result ≡ hex_digit d }
{
    if d < 10 { b'0' + d } else { b'A' + (d - 10) }
}

fn put_hex_byte(buf: &mut [u8], at: usize, b: u8) -> usize
    ensures { Placed buf.old at (hex_byte b) result buf.new }
{
    let next = put_byte(buf, at, hex_digit(b / 16));
    put_byte(buf, next, hex_digit(b % 16))
}

// Bytes as hexadecimal digits, two for each, with nothing between them.
pub fn put_hex(buf: &mut [u8], at: usize, bytes: &[u8]) -> usize
    ensures { Placed buf.old at (hex_of bytes.now) result buf.new }
{
    let mut next = at.min(buf.len() + 1);
    for &b in bytes {
        next = put_hex_byte(buf, next, b);
    }
    next
}
