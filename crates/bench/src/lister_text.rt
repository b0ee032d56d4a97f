// `lister HEX`: the lister's lines joined by `|`.
use line_text::answers::Out;
use line_text::strings::BYTES;
use line_text::words::{Fault, Words};
use listing::LISTING_ROOM;

pub(crate) fn lister(mut words: Words, out: &mut Out) -> Result<(), Fault> {
    let mut buffer = [0; BYTES];
    let input = words.bytes(&mut buffer)?;
    words.end()?;
    let mut room = [0; LISTING_ROOM];
    let listed = listing::output(input, &mut room);
    put_joined(listing::text(listed, &room), out);
    Ok(())
}

// The lines without the last line feed, and `|` for each other.
fn put_joined(lines: &[u8], out: &mut Out) {
    let [joined @ .., _] = lines else {
        return;
    };
    for b in joined {
        out.pause();
        out.raw(if *b == b'\n' {
            b"|"
        } else {
            std::slice::from_ref(b)
        });
    }
}
