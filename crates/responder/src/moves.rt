ghost use Rattle.std.specs.Prelude.{◌≡◌, List, ℕ, length};
ghost use Rattle.ground.specs.Front.{copied_to};
ghost use Rattle.responder.specs.Calls.{shown_on, whole_of, with_row, sends_ok, sends_reply, sends_held, hear_in};
ghost use Rattle.responder_row.specs.Rows.{row_of, shown_heard};
ghost use Rattle.link_telegrams.specs.Headers.{reply_header};
ghost use Rattle.link_telegrams.specs.Turns.{wrote};
ghost use Rattle.telegram_tx.specs.Writing.{shown_writing, write_of, buffer_of};

use crate::answer::ResponderAnswer;
use crate::head::ResponderHead;
use ground::{Refusal, Returned, copy_to_front};
use link_rules::Link;
use link_telegrams::{ok_header, reply_header};
use responder_row::{RowAction, RowHead};
use telegram_tx::{TelegramTxResponse, send_data_telegram};

// What the calls of `head.rt` are made of: a refusal, the head with another row, and the telegrams written. What is written is said of the
// whole record, whatever the held bytes are; a function that is lent these says it of them.

pub(crate) fn refuse(
    head: ResponderHead,
    refusal: Refusal,
) -> Returned<ResponderAnswer, ResponderHead>
    ensures { result ≡ record { answer = ResponderAnswer.Refused refusal; after = head } }
{
    Returned {
        answer: ResponderAnswer::Refused(refusal),
        after: head,
    }
}

// The head goes on with this row.
fn says(
    answer: ResponderAnswer,
    given: ResponderHead,
    row: RowHead,
) -> Returned<ResponderAnswer, ResponderHead>
    ensures { result ≡ record { answer = answer; after = record { link = given.link; row = row } } }
{
    Returned {
        answer,
        after: ResponderHead {
            link: given.link,
            row,
        },
    }
}

// The call is over once the writer has answered: `row` goes on where it wrote, and `given` stays where it refused.
fn written(
    res: Result<TelegramTxResponse, Refusal>,
    given: ResponderHead,
    row: RowHead,
) -> Returned<ResponderAnswer, ResponderHead>
    ensures { (held buf : List ℕ) → shown_on result held buf ≡ wrote (shown_writing res) (whole_of given held) (with_row (whole_of given held) (row_of row held)) buf }
{
    match res {
        Ok(response) => says(ResponderAnswer::Sent(response.bytes_sent()), given, row),
        Err(refusal) => refuse(given, refusal),
    }
}

fn send_ok(
    given: ResponderHead,
    row: RowHead,
    buf: &mut [u8],
) -> Returned<ResponderAnswer, ResponderHead>
    ensures { (held : List ℕ) → shown_on result held buf.new ≡ sends_ok (whole_of given held) (row_of row held) buf.old }
{
    let result = send_data_telegram(ok_header(given.link), b"", buf);
    written(result, given, row)
}

fn write_reply(link: Link, reply: &[u8], buf: &mut [u8]) -> Result<TelegramTxResponse, Refusal>
    ensures { (shown_writing result ≡ write_of (reply_header link) reply.now (length buf.old)) × (buf.new ≡ buffer_of (reply_header link) reply.now buf.old) }
{
    send_data_telegram(reply_header(link), reply, buf)
}

// The held reply again, straight from the lent bytes.
fn send_held(
    given: ResponderHead,
    row: RowHead,
    held: &[u8],
    buf: &mut [u8],
) -> Returned<ResponderAnswer, ResponderHead>
    ensures { shown_on result held.now buf.new ≡ sends_held (whole_of given held.now) (row_of row held.now) buf.old }
{
    let len = row.held_len(held.len());
    let result = write_reply(given.link, &held[..len], buf);
    written(result, given, row)
}

// The answer is sent, straight from where it lies, and held where it was.
pub(crate) fn send_answer(
    given: ResponderHead,
    row: RowHead,
    held: &mut [u8],
    reply: &[u8],
    buf: &mut [u8],
) -> Returned<ResponderAnswer, ResponderHead>
    ensures { shown_on result held.new buf.new ≡ sends_reply (whole_of given held.old) (row_of row (copied_to held.old reply.now)) reply.now buf.old }
{
    match write_reply(given.link, reply, buf) {
        Ok(response) => {
            copy_to_front(reply, held);
            says(ResponderAnswer::Sent(response.bytes_sent()), given, row)
        }
        Err(refusal) => refuse(given, refusal),
    }
}

// What the row asks for is done.
// (A `match` and no closure: the actions are the row's answers, which its promise names.)
pub(crate) fn acts(
    given: ResponderHead,
    turn: Returned<RowAction, RowHead>,
    held: &[u8],
    buf: &mut [u8],
) -> Returned<ResponderAnswer, ResponderHead>
    ensures { shown_on result held.now buf.new ≡ hear_in (shown_heard turn held.now) (whole_of given held.now) buf.old }
{
    let row = turn.after;
    match turn.answer {
        RowAction::WriteOk => send_ok(given, row, buf),
        RowAction::WriteHeld => send_held(given, row, held, buf),
        RowAction::HandUp(order) => says(ResponderAnswer::HandUp(order), given, row),
        RowAction::Nothing => says(ResponderAnswer::Nothing, given, row),
    }
}
