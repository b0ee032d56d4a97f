// The bits of an identifier block's body: one for each module, in the order of the configuration telegram. profirust
// gives them as a `BitSlice`. Promises: `bit_of` and `first_of` in specs/Modules.antt.
ghost use Rattle.std.specs.Prelude.{◌≡◌, ◌%◌};
ghost use Rattle.diagnostics_blocks.specs.Modules.{bit_of, first_of};

// So many modules have a bit in the longest body of a block, of 62 bytes: six bits give its length with the header. The calls below
// take a body of any length.
pub const MODULES: usize = 496;

// Whether a module's bit is set; a module past the body's end has none. In a byte the lowest bit comes first.
#[tactic(auto, using(crate::proofs::Bits::bit_past), unfolding(crate::specs::Modules::bit_of))]
pub fn is_set(body: &[u8], index: usize) -> bool
    ensures { result ≡ bit_of body.now index }
{
    let at = index / 8;
    at < body.len() && (body[at] >> (index % 8)) % 2 == 1
}

// The first module at or above a number with its bit set. One after the other: ask from 0, then from one above the answer.
#[tactic(auto, using(crate::proofs::Bits::first_here, crate::proofs::Bits::first_later, crate::proofs::Bits::first_none, crate::proofs::Bits::module_inside, crate::proofs::Bits::module_past, crate::proofs::Bits::modules_numbered), unfolding(crate::specs::Modules::first_of))]
pub fn first_set(body: &[u8], from: usize) -> Option<usize>
    ensures { result ≡ first_of body.now from }
{
    for at in from..=usize::MAX {
        if body.len() <= at / 8 {
            return None;
        }
        if is_set(body, at) {
            return Some(at);
        }
    }
    // Only a body of 2^61 bytes has a bit for the last number, and there is none above it.
    None
}
