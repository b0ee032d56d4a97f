// The store: how much of the slice that the caller lends is diagnostics, and filling it. Promises: `walked_of` and `fill_of` in specs/Store.antt.
ghost use Rattle.std.specs.Prelude.{◌≡◌};
ghost use Rattle.diagnostics.specs.Store.{available_of, fill_of, walked_of};

use ground::{Returned, copy_to_front};

// Container for extended diagnostics data: how many bytes at the front of the store that the caller lends are
// diagnostics. Any number is answered; one above the store's length counts as the store's.
#[derive(Clone, Copy, Debug, PartialEq, Eq)]
pub struct ExtendedDiagnostics {
    pub length: usize,
}

impl ExtendedDiagnostics {
    // The container beside a store that was just lent, or beside none: profirust's `default` and `from_buffer`.
    pub fn from_buffer() -> Self
        ensures { result.length ≡ 0 }
    {
        ExtendedDiagnostics { length: 0 }
    }

    // Whether extended diagnostics are even collected: there is a store for them.
    pub fn is_available(self, buffer: &[u8]) -> bool
        ensures { result ≡ available_of buffer.now }
    {
        0 < buffer.len()
    }

    // Access the raw extended diagnostics: what is walked. Where there is no store profirust gives `None`; here the part
    // is empty, and `is_available` tells that from a store with nothing in it.
    pub fn raw_diag_buffer(self, buffer: &[u8]) -> &[u8]
        ensures { result.now ≡ walked_of self.length buffer.now }
    {
        &buffer[..self.length.min(buffer.len())]
    }

    // The container after its store was taken back. The slice was the caller's all along, and its bytes stay.
    pub fn take_buffer(mut self) -> Self
        ensures { result.length ≡ 0 }
    {
        self.length = 0;
        self
    }

    // The store filled with what a peripheral reported, where there is a store and the data fit it: whether it took the data, and the
    // container as it then is.
    // (A bool is what profirust's `fill` answers.)
    #[tactic(auto, using(ground::proofs::FrontLaws::copied_fits), unfolding(crate::specs::Store::fill_of))]
    pub fn fill(self, buffer: &mut [u8], buf: &[u8]) -> Returned<bool, ExtendedDiagnostics>
        ensures { record { answer = result.answer; walked = result.after.length; store = buffer.new } ≡ fill_of buffer.old self.length buf.now }
    {
        // Without a store the extended diagnostics are ignored entirely.
        if buffer.is_empty() || buffer.len() < buf.len() {
            return Returned {
                answer: false,
                after: self,
            };
        }
        copy_to_front(buf, buffer);
        Returned {
            answer: true,
            after: ExtendedDiagnostics { length: buf.len() },
        }
    }
}
