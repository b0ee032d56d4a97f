// The leaves that write into the buffer: methods of the place that each writes at, which give the next. Promise, among private functions: `Covers` in
// specs/Leaves.antt.
ghost use Rattle.std.specs.Prelude.{◌≡◌, ◌+◌, ◌%◌, ◌≤◌, [], ◌∷◌, length};
ghost use Rattle.codes.specs.Checksums.{sum_of};
ghost use Rattle.codes.specs.Delimiters.{ED};
ghost use Rattle.telegram.specs.Picture.{address_byte, sap_bytes};
ghost use Rattle.telegram_bytes.specs.Leaves.{Stored, Covers};
ghost use Rattle.telegram_bytes.specs.Serialized.{coded_head};

use crate::coded::CodedHeader;
use codes::consts::ED;
use ground::{Address, Sap};

// The next place to write at, and the wrapping sum of what was written from da on.
#[derive(Clone, Copy)]
pub struct Place {
    pub at: usize,
    pub sum: u8,
}

impl Place {
    #[tactic(auto, using(crate::proofs::LeafLaws::byte_summed))]
    fn put_byte(self, buf: &mut [u8], b: u8) -> Place
        requires { self.at + 1 ≤ length buf.old }
        ensures { Covers buf.old self (b ∷ []) result buf.new }
    {
        buf[self.at] = b;
        Place {
            at: self.at + 1,
            sum: self.sum.wrapping_add(b),
        }
    }

    // An address, whose top bit announces its SAP.
    fn put_address(self, buf: &mut [u8], address: Address, sap: Option<Sap>) -> Place
        requires { (address.0 ≤ 127) × (self.at + 1 ≤ length buf.old) }
        ensures { Covers buf.old self (address_byte address.0 sap ∷ []) result buf.new }
    {
        match sap {
            Some(_) => self.put_byte(buf, address.0 + 128),
            None => self.put_byte(buf, address.0),
        }
    }

    #[tactic(auto, using(crate::proofs::LeafLaws::nothing_summed))]
    fn put_sap(self, buf: &mut [u8], sap: Option<Sap>) -> Place
        requires { self.at + length (sap_bytes sap) ≤ length buf.old }
        ensures { Covers buf.old self (sap_bytes sap) result buf.new }
    {
        match sap {
            Some(number) => self.put_byte(buf, number.0),
            None => self,
        }
    }

    // da, sa and fc, then the SAPs.
    #[tactic(auto, using(crate::proofs::LengthLaws::head_length))]
    pub(crate) fn put_head(self, buf: &mut [u8], header: CodedHeader) -> Place
        requires { (header.da.0 ≤ 127) × (header.sa.0 ≤ 127) × (self.at + length (coded_head header) ≤ length buf.old) }
        ensures { Covers buf.old self (coded_head header) result buf.new }
    {
        self.put_address(buf, header.da, header.dsap)
            .put_address(buf, header.sa, header.ssap)
            .put_byte(buf, header.code)
            .put_sap(buf, header.dsap)
            .put_sap(buf, header.ssap)
    }

    // The part of the buffer behind the header is lent to the copying leaf.
    #[tactic(auto, using(crate::proofs::LeafLaws::part_stored))]
    pub(crate) fn put_pdu(self, buf: &mut [u8], pdu: &[u8]) -> Place
        requires { self.at + length pdu.now ≤ length buf.old }
        ensures { Covers buf.old self pdu.now result buf.new }
    {
        let end = self.at + pdu.len();
        let sum = copy_sum(pdu, self.sum, &mut buf[self.at..end]);
        Place { at: end, sum }
    }

    // The checksum and the end delimiter. Gives the place behind them.
    pub(crate) fn put_end(self, buf: &mut [u8]) -> usize
        requires { self.at + 2 ≤ length buf.old }
        ensures { Stored buf.old self.at (self.sum ∷ ED ∷ []) result buf.new }
    {
        buf[self.at] = self.sum;
        buf[self.at + 1] = ED;
        self.at + 2
    }
}

// Copies and sums in one loop: the bytes just written are not read again for the checksum. (`copy_from_slice` beside `checksum`, tried, takes
// 10 to 20 instructions more and a call of C's memcpy.)
#[tactic(auto, using(crate::proofs::LeafLaws::copy_starts, crate::proofs::LeafLaws::copy_goes_on, crate::proofs::LeafLaws::copy_ends, codes::proofs::ChecksumLaws::sum_starts, codes::proofs::ChecksumLaws::sum_goes_on, codes::proofs::ChecksumLaws::sum_ends))]
fn copy_sum(src: &[u8], sum: u8, dst: &mut [u8]) -> u8
    requires { length src.now ≡ length dst.old }
    ensures { (result ≡ (sum + sum_of src.now) % 256) × (dst.new ≡ src.now) }
{
    let mut total = sum;
    for (i, &b) in src.iter().enumerate() {
        dst[i] = b;
        total = total.wrapping_add(b);
    }
    total
}
