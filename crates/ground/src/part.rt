// A part of a byte string, which stands in for a borrowed slice in an answer. Promise: `shown_part` in specs/Part.antt.
ghost use Rattle.std.specs.Prelude.{◌≡◌};
ghost use Rattle.ground.specs.Part.{shown_part};

// A part, by its start and its length: document 01's form.
#[derive(Clone, Copy, Debug, PartialEq, Eq)]
pub struct Part {
    pub start: usize,
    pub len: usize,
}

impl Part {
    // The part of these bytes, or the empty part at their end where it does not fit them.
    #[tactic(auto, using(crate::proofs::PartLaws::shown_fits, crate::proofs::PartLaws::shown_short))]
    pub fn show(self, bytes: &[u8]) -> &[u8]
        ensures { result.now ≡ shown_part self bytes.now }
    {
        let all = bytes.len();
        if all < self.start || all - self.start < self.len {
            return &bytes[all..];
        }
        &bytes[self.start..self.start + self.len]
    }
}
