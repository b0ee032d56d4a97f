// Decimal numbers, laid down at a place and read at one. Promises: `decimal_of` and `number_at` in specs/Decimal.antt.
ghost use Rattle.std.specs.Prelude.{◌≡◌, ◌+◌, ◌-◌, ◌*◌, ◌<◌, ◌≤◌, min, length, drop};
ghost use Rattle.text.specs.Decimal.{digit_of, decimal_of, is_digit, digits_in, is_decimal, number_at};
ghost use Rattle.text.specs.Leaves.{DigitsRead};
ghost use Rattle.text.specs.Placed.{Placed};

use crate::place::put_byte;

// A decimal number that was read, with the place behind its digits.
#[derive(Clone, Copy, Debug, PartialEq, Eq)]
pub struct Number {
    pub value: usize,
    pub next: usize,
}

// How many digits n has.
#[tactic(auto, using(crate::proofs::DecimalLaws::decimal_length_word, crate::proofs::DecimalLaws::small_length, crate::proofs::DecimalLaws::large_length))]
pub fn decimal_len(n: usize) -> usize
    ensures { result ≡ length (decimal_of n) }
{
    // It counts divisions: there is nothing to iterate over.
    let mut rest = n;
    let mut len = 1;
    while 10 <= rest {
        rest /= 10;
        len += 1;
    }
    len
}

fn digit(d: usize) -> u8
    requires { d < 10 }
    ensures { result ≡ digit_of d }
{
    b'0' + d as u8
}

// The digits before the last are those of n / 10; there are at most 20, so it calls itself at most 19 deep.
#[tactic(auto, using(crate::proofs::DecimalLaws::decimal_small))]
pub fn put_decimal(buf: &mut [u8], at: usize, n: usize) -> usize
    ensures { Placed buf.old at (decimal_of n) result buf.new }
{
    if n < 10 {
        return put_byte(buf, at, digit(n));
    }
    let last = put_decimal(buf, at, n / 10);
    put_byte(buf, last, digit(n % 10))
}

#[tactic(auto, unfolding(crate::specs::Decimal::is_digit))]
fn is_digit(b: u8) -> bool
    ensures { result ≡ is_digit b }
{
    matches!(b, b'0'..=b'9')
}

// One more digit behind a number. The limit keeps the product within its type.
fn append(value: usize, b: u8, limit: u32) -> usize
    requires value_bound { value ≤ limit + 1 }
    requires le_b { 48 ≤ b }
    ensures { result ≡ min (value * 10 + (b - 48)) (limit + 1) }
{
    (value * 10 + (b - b'0') as usize).min(limit as usize + 1)
}

// The digits at a place: the number that they say, or one above the limit where it is above it, and the place behind them.
#[tactic(auto, using(crate::proofs::ReadingLaws::left_end, crate::proofs::ReadingLaws::left_turn, crate::proofs::ReadingLaws::digits_stop, crate::proofs::ReadingLaws::digits_beyond, crate::proofs::DecimalLaws::digit_range))]
fn digits_at(text: &[u8], at: usize, limit: u32) -> Number
    ensures { DigitsRead text.now at limit result }
{
    let mut value = 0;
    for next in at..text.len() {
        let b = text[next];
        if !is_digit(b) {
            return Number { value, next };
        }
        value = append(value, b, limit);
    }
    Number {
        value,
        next: at.max(text.len()),
    }
}

// Whether the digits up to a place are those of a number: at least one, and no zero in front of another.
#[tactic(auto, using(crate::proofs::ReadingLaws::no_digit, crate::proofs::ReadingLaws::one_digit, crate::proofs::ReadingLaws::several_digits, crate::proofs::ReadingLaws::digits_head, crate::proofs::ReadingLaws::digits_within, crate::proofs::DecimalLaws::digits_in_digits))]
fn is_decimal(text: &[u8], at: usize, next: usize) -> bool
    requires { next ≡ at + length (digits_in (drop at text.now)) }
    ensures { result ≡ is_decimal (digits_in (drop at text.now)) }
{
    match next - at {
        0 => false,
        1 => true,
        _ => text[at] != b'0',
    }
}

// The number at a place, where there is one from 0 to the limit without leading zeros.
#[tactic(auto, unfolding(crate::specs::Decimal::number_at))]
pub fn get_decimal(text: &[u8], at: usize, limit: u32) -> Option<Number>
    ensures { result ≡ number_at text.now at limit }
{
    let number = digits_at(text, at, limit);
    if !is_decimal(text, at, number.next) || number.value > limit as usize {
        return None;
    }
    Some(number)
}
