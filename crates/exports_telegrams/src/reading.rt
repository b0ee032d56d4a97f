// A telegram read, told in numbers. Promise: `koy_read` in specs/Read.antt.
ghost use Rattle.std.specs.Prelude.{◌≡◌};
ghost use Rattle.exports_telegrams.specs.Read.{data_told, koy_read, sap_number, told_of};

use ground::Sap;
use telegram::{DataTelegram, Deserialized, Telegram, TokenTelegram};

// Stands where a byte is absent.
pub const ABSENT: usize = 256;
// The code of "incomplete".
pub const INCOMPLETE: u8 = 100;

fn sap_number(sap: Option<Sap>) -> usize
    ensures { result ≡ sap_number sap }
{
    sap.map_or(ABSENT, |s| s.0 as usize)
}

fn token_told(t: TokenTelegram, total: usize) -> [usize; 9]
    ensures { result ≡ told_of (Telegram.Token t) total }
{
    [
        2,
        total,
        t.da.0 as usize,
        t.sa.0 as usize,
        ABSENT,
        ABSENT,
        ABSENT,
        0,
        0,
    ]
}

fn data_told(t: DataTelegram, total: usize) -> [usize; 9]
    ensures { result ≡ data_told t.h t.pdu.start t.pdu.len total }
{
    let h = t.h;
    let (da, sa) = (h.da.0 as usize, h.sa.0 as usize);
    let (dsap, ssap) = (sap_number(h.dsap), sap_number(h.ssap));
    let fc = h.fc.to_byte() as usize;
    [3, total, da, sa, dsap, ssap, fc, t.pdu.start, t.pdu.len]
}

fn told_of(telegram: Telegram, total: usize) -> [usize; 9]
    ensures { result ≡ told_of telegram total }
{
    match telegram {
        Telegram::Data(t) => data_told(t, total),
        Telegram::Token(t) => token_told(t, total),
        Telegram::ShortConfirmation => { [1, total, ABSENT, ABSENT, ABSENT, ABSENT, ABSENT, 0, 0] }
    }
}

pub fn koy_read(bytes: &[u8], told: &mut [usize; 9]) -> u8
    ensures { record { code = result; told = told.new } ≡ koy_read bytes.now told.old }
{
    match Telegram::deserialize(bytes) {
        Deserialized::Telegram(telegram, total) => {
            *told = told_of(telegram, total);
            0
        }
        Deserialized::Incomplete => INCOMPLETE,
        Deserialized::Refused(refusal) => refusal.number(),
    }
}
