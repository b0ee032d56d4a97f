// What the two ends have in common.
ghost use Rattle.std.specs.Prelude.{◌≡◌, ◌++◌, ◌+◌, length};
ghost use Rattle.exports_link.specs.Bytes.{length_byte};
ghost use Rattle.link_rules.specs.Rules.{link_of};

use ground::{Address, copy_to_front};
use link_rules::Link;

pub(crate) fn link_of(own: u8, peer: u8) -> Link
    ensures { result ≡ link_of own peer }
{
    Link {
        own: Address(own),
        peer: Address(peer),
    }
}

#[tactic(auto, unfolding(crate::specs::Bytes::length_byte))]
pub(crate) fn length_byte(len: usize) -> u8
    ensures { result ≡ length_byte len }
{
    len.min(255) as u8
}

// Fills the bytes of a record: nothing else of it is copied.
#[tactic(auto, using(crate::proofs::ByteLaws::joined))]
pub(crate) fn store(head: &[u8], last: &[u8], state: &mut [u8])
    requires { length head.now + length last.now ≡ length state.old }
    ensures { state.new ≡ head.now ++ last.now }
{
    copy_to_front(head, state);
    copy_to_front(last, &mut state[head.len()..]);
}
