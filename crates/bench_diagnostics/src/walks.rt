// `diag HEX`, `step STORE LEN CURSOR`
use crate::blocks::put_block;
use diagnostics::{ExtDiagBlockIter, ExtendedDiagnostics, Found};
use ground::Returned;
use line_text::answers::Out;
use line_text::strings::BYTES;
use line_text::words::{Fault, Words};

// What a step found, with the cursor after it: a refusal moves it to the end of what is walked.
fn put_step(
    step: Returned<Found, ExtDiagBlockIter>,
    diag: ExtendedDiagnostics,
    store: &[u8],
    out: &mut Out,
) {
    match step.answer {
        Found::Block(block) => put_block(block, diag, store, out),
        Found::End => out.text("end"),
        Found::Refused(refusal) => out.refusal(refusal),
    }
    out.text(" @");
    out.number(step.after.cursor);
}

// A step that finds a block always goes on, and within the store; that it does is asked here, which shows that the loop ends.
pub(crate) fn put_walk(diag: ExtendedDiagnostics, store: &[u8], out: &mut Out) {
    let mut iter = diag.iter_diag_blocks();
    loop {
        let step = iter.next(diag, store);
        out.pause();
        put_step(step, diag, store, out);
        if !matches!(step.answer, Found::Block(_)) || step.after.cursor <= iter.cursor {
            return;
        }
        out.bar();
        iter = step.after;
    }
}

// `diag HEX`: the store is just these bytes.
pub(crate) fn diag(mut words: Words, out: &mut Out) -> Result<(), Fault> {
    let mut buffer = [0; BYTES];
    let store = words.bytes(&mut buffer)?;
    words.end()?;
    let diag = ExtendedDiagnostics {
        length: store.len(),
    };
    put_walk(diag, store, out);
    Ok(())
}

// `step STORE LEN CURSOR`
pub(crate) fn step(mut words: Words, out: &mut Out) -> Result<(), Fault> {
    let mut buffer = [0; BYTES];
    let store = words.bytes(&mut buffer)?;
    let diag = ExtendedDiagnostics {
        length: words.number()?,
    };
    let iter = ExtDiagBlockIter {
        cursor: words.number()?,
    };
    words.end()?;
    put_step(iter.next(diag, store), diag, store, out);
    Ok(())
}
