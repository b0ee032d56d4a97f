// The diagnostics store and its walk for programs in other languages: enums become numbers here. Promises: the definitions of specs/Calls.antt that
// are named like the calls.
#![tactic(auto)]

ghost use Rattle.std.specs.Prelude.{◌≡◌, [], ◌∷◌, ℕ};
ghost use Rattle.diagnostics_blocks.specs.Shown.{shown_channel};
ghost use Rattle.diagnostics.specs.Shown.{shown_block, shown_found};
ghost use Rattle.diagnostics.specs.Walk.{channel_is};
ghost use Rattle.exports_diagnostics.specs.Calls.{koy_diagnostics_fill, koy_diagnostics_module, koy_diagnostics_step, step_call, told_of};

use diagnostics::{ExtDiagBlock, ExtDiagBlockIter, ExtendedDiagnostics, Found};
use diagnostics_blocks::{ChannelDiagnostics, modules};

// The code at the end of the walk.
pub const AT_END: u8 = 101;

// The numbers of a block stand in an array: the C interface.
fn channel_told(c: ChannelDiagnostics) -> [usize; 9]
    ensures { result ≡ told_of (channel_is (shown_channel c)) }
{
    let module = c.module as usize;
    let channel = c.channel as usize;
    let input = c.input as usize;
    let output = c.output as usize;
    let dtype = c.dtype as usize;
    let error = c.error.into_diag_byte2() as usize;
    [3, 0, 0, module, channel, input, output, dtype, error]
}

fn told_of(block: ExtDiagBlock) -> [usize; 9]
    ensures { result ≡ told_of (shown_block block) }
{
    match block {
        ExtDiagBlock::Identifier(body) => [1, body.start, body.len, 0, 0, 0, 0, 0, 0],
        ExtDiagBlock::Channel(c) => channel_told(c),
        ExtDiagBlock::Device(body) => [2, body.start, body.len, 0, 0, 0, 0, 0, 0],
    }
}

fn tell(found: Found, told: &mut [usize; 9]) -> u8
    ensures { (next : ℕ) → record { code = result; cursor = next ∷ []; told = told.new } ≡ step_call (shown_found found) next told.old }
{
    match found {
        Found::Block(block) => {
            *told = told_of(block);
            0
        }
        Found::End => AT_END,
        Found::Refused(refusal) => refusal.number(),
    }
}

pub fn koy_diagnostics_step(
    store: &[u8],
    walked: usize,
    cursor: &mut [usize; 1],
    told: &mut [usize; 9],
) -> u8
    ensures { record { code = result; cursor = cursor.new; told = told.new } ≡ koy_diagnostics_step store.now walked cursor.old told.old }
{
    let iter = ExtDiagBlockIter { cursor: cursor[0] };
    let diag = ExtendedDiagnostics { length: walked };
    let step = iter.next(diag, store);
    *cursor = [step.after.cursor];
    tell(step.answer, told)
}

pub fn koy_diagnostics_fill(store: &mut [u8], walked: &mut [usize; 1], bytes: &[u8]) -> bool
    ensures { record { answer = result; walked = walked.new; store = store.new } ≡ koy_diagnostics_fill store.old walked.old bytes.now }
{
    let diag = ExtendedDiagnostics { length: walked[0] };
    let filled = diag.fill(store, bytes);
    *walked = [filled.after.length];
    filled.answer
}

pub fn koy_diagnostics_module(body: &[u8], module: usize) -> bool
    ensures { result ≡ koy_diagnostics_module body.now «module» }
{
    modules::is_set(body, module)
}
