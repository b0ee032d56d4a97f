// The words behind OWN: ops, each of which is one call of a station list.
ghost use Rattle.std.specs.Prelude.{◌<◌, length, OnOk};

use ground::{Address, Refusal, Returned};
use line_text::words::{Fault, Words, split_byte, whole_byte};
use token_ring::TokenRing;

#[derive(Clone, Copy)]
pub(crate) enum Op {
    Witness(Address, Address),
    Claim,
    SetNext(Address),
    Remove(Address),
}

// What stands behind the colon at the front of these bytes.
fn behind_colon(bytes: &[u8]) -> Result<&[u8], Fault> {
    match bytes {
        [b':', rest @ ..] => Ok(rest),
        _ => Err(Fault::BadOp),
    }
}

fn last_address(bytes: &[u8]) -> Result<Address, Fault> {
    Ok(Address(whole_byte(behind_colon(bytes)?)?))
}

// SA and DA, each behind a colon.
fn witness(bytes: &[u8]) -> Result<Op, Fault> {
    let (sa, rest) = split_byte(behind_colon(bytes)?)?;
    Ok(Op::Witness(Address(sa), last_address(rest)?))
}

pub(crate) fn next_op(words: &mut Words) -> Result<Op, Fault>
    ensures { OnOk result (length words.new.rest.now < length words.old.rest.now) }
{
    match words.word()? {
        [b'w', rest @ ..] => witness(rest),
        b"c" => Ok(Op::Claim),
        [b's', rest @ ..] => Ok(Op::SetNext(last_address(rest)?)),
        [b'r', rest @ ..] => Ok(Op::Remove(last_address(rest)?)),
        _ => Err(Fault::BadOp),
    }
}

impl Op {
    pub(crate) fn applied(self, ring: TokenRing) -> Returned<Result<(), Refusal>, TokenRing> {
        match self {
            Op::Witness(sa, da) => Returned {
                answer: Ok(()),
                after: ring.witness_token_pass(sa, da),
            },
            Op::Claim => Returned {
                answer: Ok(()),
                after: ring.claim_token(),
            },
            Op::SetNext(address) => ring.set_next_station(address),
            Op::Remove(address) => ring.remove_station(address),
        }
    }
}
