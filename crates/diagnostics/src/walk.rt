// The walk over the blocks of a store, one step for each call. Promise: `step_of` in specs/Walk.antt, seen through `shown_step`.
ghost use Rattle.std.specs.Prelude.{◌≡◌, ℕ, ◌+◌, ◌≤◌, ◌<◌, ◌/◌, ◌%◌, ◌^◌, List, length};
ghost use Rattle.ground.specs.Refusals.{number_of};
ghost use Rattle.diagnostics.specs.Shown.{shown_found, shown_step};
ghost use Rattle.diagnostics.specs.Store.{walked_of};
ghost use Rattle.diagnostics.specs.Walk.{headed_by, refused_at, step_of};

use crate::store::ExtendedDiagnostics;
use diagnostics_blocks::ChannelDiagnostics;
use ground::{Part, Refusal, Returned};

// One extended diagnostics block. A body is the part of what is walked that it says: `body.show(diag.raw_diag_buffer(buffer))`.
#[derive(Clone, Copy, Debug, PartialEq, Eq)]
pub enum ExtDiagBlock {
    // Identifier-based diagnostics: a bit for each module, set where the module reports a problem.
    Identifier(Part),
    // Channel-based diagnostics.
    Channel(ChannelDiagnostics),
    // Device-based diagnostics, to be interpreted with the device's GSD file.
    Device(Part),
}

// What a step of the walk finds; document 01: `Option<Result<..>>` becomes a three-way answer.
#[derive(Clone, Copy, Debug, PartialEq, Eq)]
pub enum Found {
    Block(ExtDiagBlock),
    End,
    Refused(Refusal),
}

// Iterator over the blocks of a store, by value. Any number is answered as a cursor.
#[derive(Clone, Copy, Debug, PartialEq, Eq)]
pub struct ExtDiagBlockIter {
    pub cursor: usize,
}

// The walk begins here, beside the iterator that it makes, so that the store knows nothing of the walk.
impl ExtendedDiagnostics {
    // Iterate over diagnostics blocks in the extended diagnostics.
    pub fn iter_diag_blocks(self) -> ExtDiagBlockIter
        ensures { result.cursor ≡ 0 }
    {
        ExtDiagBlockIter { cursor: 0 }
    }
}

impl ExtDiagBlockIter {
    // What the step found, and where the walk goes on.
    pub fn next(self, diag: ExtendedDiagnostics, buffer: &[u8]) -> Returned<Found, ExtDiagBlockIter>
        ensures { shown_step result ≡ step_of (walked_of diag.length buffer.now) self.cursor }
    {
        step_at(diag.raw_diag_buffer(buffer), self.cursor)
    }
}

// A step of the walk.
type Step = Returned<Found, ExtDiagBlockIter>;

fn step(answer: Found, cursor: usize) -> Step
    ensures { shown_step result ≡ record { answer = shown_found answer; cursor = cursor } }
{
    Returned {
        answer,
        after: ExtDiagBlockIter { cursor },
    }
}

fn refused(refusal: Refusal, end: usize) -> Step
    ensures { shown_step result ≡ refused_at (number_of refusal) end }
{
    step(Found::Refused(refusal), end)
}

#[tactic(auto, using(crate::proofs::Steps::step_stays, crate::proofs::Steps::step_inside, crate::proofs::Headers::headed_reserved))]
fn step_at(raw: &[u8], cursor: usize) -> Step
    ensures { shown_step result ≡ step_of raw.now cursor }
{
    if raw.len() <= cursor {
        return step(Found::End, cursor);
    }
    let header = raw[cursor];
    match header / 64 {
        // Identifier-based diagnostics.
        0b01 => sized_step::<0b01>(raw, cursor, header),
        // Channel-based diagnostics.
        0b10 => channel_step(raw, cursor, header),
        // Device-based diagnostics.
        0b00 => sized_step::<0b00>(raw, cursor, header),
        // Reserved.
        _ => refused(Refusal::BlockReserved, raw.len()),
    }
}

// The step at the header of a block that says its length, itself included. The kind is a constant, so that each arm of `step_at` becomes its
// own straight code.
#[tactic(auto, using(crate::proofs::Headers::sized_zero, crate::proofs::Headers::sized_cut, crate::proofs::Headers::sized_whole, crate::proofs::Headers::block_identifier, crate::proofs::Headers::block_device))]
fn sized_step<const KIND: u8>(raw: &[u8], cursor: usize, header: u8) -> Step
    requires { (cursor < length raw.now) × (header / 64 ≡ KIND) × (KIND < 2) }
    ensures { shown_step result ≡ headed_by raw.now cursor header }
{
    let end = raw.len();
    let size = (header % 64) as usize;
    if size == 0 {
        return refused(Refusal::BlockLengthZero, end);
    }
    let next = cursor + size;
    if end < next {
        return refused(Refusal::BlockCutOff, end);
    }
    let body = Part {
        start: cursor + 1,
        len: size - 1,
    };
    if KIND == 0b01 {
        step(Found::Block(ExtDiagBlock::Identifier(body)), next)
    } else {
        step(Found::Block(ExtDiagBlock::Device(body)), next)
    }
}

// The step at the header of a channel block.
#[tactic(auto, using(crate::proofs::Headers::channel_cut, crate::proofs::Headers::channel_whole))]
fn channel_step(raw: &[u8], cursor: usize, header: u8) -> Step
    requires { (cursor < length raw.now) × (header / 64 ≡ 2) }
    ensures { shown_step result ≡ headed_by raw.now cursor header }
{
    let next = cursor + 3;
    if raw.len() < next {
        return refused(Refusal::BlockCutOff, raw.len());
    }
    let channel = ChannelDiagnostics::from_diag_bytes(header, raw[cursor + 1], raw[cursor + 2]);
    step(Found::Block(ExtDiagBlock::Channel(channel)), next)
}
