// `settings HEX`: HEX is the text's bytes.
use line_text::answers::Out;
use line_text::strings::BYTES;
use line_text::words::{Fault, Words};
use settings::read_settings;

pub(crate) fn settings(mut words: Words, out: &mut Out) -> Result<(), Fault> {
    let mut buffer = [0; BYTES];
    let text = words.bytes(&mut buffer)?;
    words.end()?;
    match read_settings(text) {
        Ok(settings) => {
            out.text("ok");
            out.next_byte(settings.own.0);
            out.next_byte(settings.peer.0);
            out.next_byte(settings.tries);
        }
        Err(refusal) => out.refused(refusal),
    }
    Ok(())
}
