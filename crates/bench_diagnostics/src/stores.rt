// `raw STORE LEN`, `store ROOM DATA…`
use crate::walks::put_walk;
use diagnostics::ExtendedDiagnostics;
use line_text::answers::Out;
use line_text::strings::{BYTES, ROOM};
use line_text::words::{Fault, Words};

// `raw STORE LEN`: what is collected in a store, and what is left when it is taken back.
pub(crate) fn raw(mut words: Words, out: &mut Out) -> Result<(), Fault> {
    let mut buffer = [0; BYTES];
    let store = words.bytes(&mut buffer)?;
    let diag = ExtendedDiagnostics {
        length: words.number()?,
    };
    words.end()?;
    out.bool(diag.is_available(store));
    out.next_hex(diag.raw_diag_buffer(store));
    out.bar();
    out.number(diag.take_buffer().length);
    out.next_hex(store);
    Ok(())
}

// All byte strings are read before the first fills the store, so that a bad line is answered by `error` alone. (Each turn takes a word; how many
// there are is not known before.)
fn check_data(mut words: Words) -> Result<(), Fault> {
    let mut buffer = [0; BYTES];
    while !words.is_end() {
        words.bytes(&mut buffer)?;
    }
    Ok(())
}

fn put_fillings(mut words: Words, store: &mut [u8], out: &mut Out) -> Result<(), Fault> {
    let mut diag = ExtendedDiagnostics::from_buffer();
    let mut buffer = [0; BYTES];
    while !words.is_end() {
        let filled = diag.fill(store, words.bytes(&mut buffer)?);
        out.pause();
        out.text(if filled.answer { "true" } else { "false" });
        diag = filled.after;
        out.next_number(diag.length);
        out.next_hex(store);
        out.bar();
    }
    put_walk(diag, store, out);
    Ok(())
}

// `store ROOM DATA…`: the store is the first ROOM bytes of a buffer that is as long as a ROOM may be.
pub(crate) fn store(mut words: Words, out: &mut Out) -> Result<(), Fault> {
    let room = words.room()?;
    check_data(words)?;
    let mut buffer = [0xAA; ROOM];
    let store = buffer.get_mut(..room).ok_or(Fault::RoomTooLarge)?;
    put_fillings(words, store, out)
}
