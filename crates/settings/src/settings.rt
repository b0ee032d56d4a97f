// The settings of a link, read from their text and written as it. Promises: `read_of` in specs/Reading.antt, `Wrote` in specs/Writing.antt.
ghost use Rattle.std.specs.Prelude.{◌≡◌, length};
ghost use Rattle.text.specs.Placed.{Placed};
ghost use Rattle.settings.specs.Text.{text_of};
ghost use Rattle.ground.specs.Refusals.{shown};
ghost use Rattle.settings.specs.Rules.{rule_of};
ghost use Rattle.settings.specs.Reading.{form_of, shown_read, read_of};
ghost use Rattle.settings.specs.Writing.{Wrote};

use crate::line::{get_line, put_line};
use ground::{Address, Refusal};
use link_rules::{Link, wrong_addresses, wrong_tries};

// The two ends of an order link, and how often a telegram is tried.
#[derive(Clone, Copy, Debug, PartialEq, Eq)]
pub struct Settings {
    pub own: Address,
    pub peer: Address,
    pub tries: u8,
}

// The three numbers of a text of the right form.
#[tactic(auto, unfolding(crate::specs::Reading::form_of))]
fn form_of(text: &[u8]) -> Option<Settings>
    ensures { result ≡ form_of text.now }
{
    let own = get_line(text, 0, b"own=")?;
    let peer = get_line(text, own.next, b"peer=")?;
    let tries = get_line(text, peer.next, b"tries=")?;
    if tries.next != text.len() {
        return None;
    }
    Some(Settings {
        own: Address(own.value),
        peer: Address(peer.value),
        tries: tries.value,
    })
}

// What a link asks of its addresses and tries, whatever the text.
#[tactic(auto, unfolding(crate::specs::Rules::rule_of))]
fn check(settings: Settings) -> Result<(), Refusal>
    ensures { shown result ≡ rule_of settings.own.0 settings.peer.0 settings.tries }
{
    let link = Link {
        own: settings.own,
        peer: settings.peer,
    };
    if wrong_addresses(link) {
        return Err(Refusal::LinkAddresses);
    }
    if wrong_tries(settings.tries) {
        return Err(Refusal::Tries);
    }
    Ok(())
}

// The settings that the text says, where it has the form and a link can have them.
#[tactic(auto, unfolding(crate::specs::Reading::read_of, crate::specs::Reading::checked_of))]
pub fn read_settings(text: &[u8]) -> Result<Settings, Refusal>
    ensures { shown_read result ≡ read_of text.now }
{
    let settings = form_of(text).ok_or(Refusal::SettingsForm)?;
    check(settings)?;
    Ok(settings)
}

// The names take 15 bytes and the line feeds 3.
#[tactic(auto, using(crate::proofs::WritingLaws::text_length, crate::proofs::WritingLaws::byte_length))]
fn text_len(settings: Settings) -> usize
    ensures { result ≡ length (text_of settings.own.0 settings.peer.0 settings.tries) }
{
    let own_len = text::decimal_len(settings.own.0 as usize);
    let peer_len = text::decimal_len(settings.peer.0 as usize);
    let tries_len = text::decimal_len(settings.tries as usize);
    own_len + peer_len + tries_len + 18
}

fn put_text(buf: &mut [u8], settings: Settings) -> usize
    ensures { Placed buf.old 0 (text_of settings.own.0 settings.peer.0 settings.tries) result buf.new }
{
    let peer_at = put_line(buf, 0, b"own=", settings.own.0);
    let tries_at = put_line(buf, peer_at, b"peer=", settings.peer.0);
    put_line(buf, tries_at, b"tries=", settings.tries)
}

// Writes the text to the front of the buffer. Bytes past it stay, and all of them where the call is refused.
#[tactic(auto, unfolding(crate::specs::Writing::write_of))]
pub fn write_settings(settings: Settings, buf: &mut [u8]) -> Result<usize, Refusal>
    ensures { Wrote settings.own.0 settings.peer.0 settings.tries buf.old
        result buf.new }
{
    check(settings)?;
    if buf.len() < text_len(settings) {
        return Err(Refusal::NoRoom);
    }
    Ok(put_text(buf, settings))
}
