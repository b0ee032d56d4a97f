// Every refusal and its number, and the number of an answer. Promise: `number_of` and `shown` in specs/Refusals.antt.
ghost use Rattle.std.specs.Prelude.{◌≡◌};
ghost use Rattle.ground.specs.Refusals.{number_of, shown};

// Every refusal that a call can answer, with its number. specs/Refusals.antt says when each is given.
#[derive(Clone, Copy, Debug, PartialEq, Eq)]
pub enum Refusal {
    UnknownStart = 1,
    LengthsDiffer = 2,
    LengthTooSmall = 3,
    FunctionCode = 4,
    SapMissing = 5,
    Checksum = 6,
    EndDelimiter = 7,
    AddressTooLarge = 8,
    TooLong = 9,
    NoRoom = 10,
    NotAStation = 11,
    BlockCutOff = 12,
    BlockReserved = 13,
    BlockLengthZero = 14,
    CycleInactive = 15,
    OrderLength = 16,
    OrderPending = 17,
    LinkAddresses = 18,
    Tries = 19,
    SettingsForm = 20,
    NoReplyOwed = 21,
    InputTooLong = 22,
}

impl Refusal {
    // A call with a name and no `From`: what `refusal.number()` tells is read off it.
    pub fn number(self) -> u8
        ensures { result ≡ number_of self }
    {
        self as u8
    }
}

// 0 where a call did what it was asked, else the refusal's number. (A function of its own, since `Result` is the library's type.)
pub fn answer_number(answer: Result<(), Refusal>) -> u8
    ensures { result ≡ shown answer }
{
    match answer {
        Ok(()) => 0,
        Err(refusal) => refusal.number(),
    }
}
