// What is done to a lent buffer: bytes go to its front. Promise: `copied_to` in specs/Front.antt.
ghost use Rattle.std.specs.Prelude.{◌≡◌, ◌++◌, ◌≤◌, length, drop};
ghost use Rattle.ground.specs.Front.{copied_to};

// A loop, and no `copy_from_slice`: that becomes a call of C's memmove, and the static libraries promise a driver that they call nothing of the kind.
#[tactic(auto, using(crate::proofs::FrontLaws::copy_starts, crate::proofs::FrontLaws::copy_goes_on, crate::proofs::FrontLaws::copy_ends))]
fn copy(bytes: &[u8], buffer: &mut [u8])
    requires { length bytes.now ≤ length buffer.old }
    ensures { buffer.new ≡ bytes.now ++ drop (length bytes.now) buffer.old }
{
    for (i, &b) in bytes.iter().enumerate() {
        buffer[i] = b;
    }
}

// Copies the bytes to the front of the buffer. Where they do not fit it stays as it came.
#[tactic(auto, using(crate::proofs::FrontLaws::copied_fits, crate::proofs::FrontLaws::copied_short))]
pub fn copy_to_front(bytes: &[u8], buffer: &mut [u8])
    ensures { buffer.new ≡ copied_to buffer.old bytes.now }
{
    if bytes.len() <= buffer.len() {
        copy(bytes, buffer);
    }
}
