// The checksum of a telegram. Promise: `checksum_of` in specs/Checksums.antt.
ghost use Rattle.std.specs.Prelude.{◌≡◌};
ghost use Rattle.codes.specs.Checksums.{checksum_of};

// The frame check sequence of a part of a telegram.
#[tactic(auto, using(crate::proofs::ChecksumLaws::sum_starts, crate::proofs::ChecksumLaws::sum_goes_on, crate::proofs::ChecksumLaws::checksum_ends))]
pub fn checksum(s: &[u8]) -> u8
    ensures { result ≡ checksum_of s.now }
{
    let mut sum: u8 = 0;
    for &b in s {
        sum = sum.wrapping_add(b);
    }
    sum
}
