ghost use Rattle.std.specs.Prelude.{◌≡◌};
ghost use Rattle.link_numbers.specs.Numbers.{by_bit};

use link_telegrams::Bit;

// Both numbers are named, as in the definitions: `low + bit as u8` would leave one of them to be worked out.
pub(crate) fn by_bit(bit: Bit, low: u8, high: u8) -> u8
    ensures { result ≡ by_bit bit low high }
{
    match bit {
        Bit::Low => low,
        Bit::High => high,
    }
}
