// The kinds of telegrams, and the small questions that the Rust answers of them. Promise: specs/Questions.antt.
ghost use Rattle.std.specs.Prelude.{◌≡◌};
ghost use Rattle.ground.specs.Part.{shown_part};
ghost use Rattle.telegram.specs.Questions.{source_of, destination_of, status_request_of, response_of};

use crate::header::DataTelegramHeader;
use codes::{FunctionCode, RequestType, ResponseStatus};
use ground::{Address, Part};

// A data telegram. Its PDU is a part of the bytes that it was read from.
#[derive(Clone, Copy, Debug, PartialEq, Eq)]
pub struct DataTelegram {
    pub h: DataTelegramHeader,
    pub pdu: Part,
}

impl DataTelegram {
    // The PDU, as a part of the bytes that the telegram was read from.
    pub fn pdu(self, bytes: &[u8]) -> &[u8]
        ensures { result.now ≡ shown_part self.pdu bytes.now }
    {
        self.pdu.show(bytes)
    }

    // The source address if this telegram is an FDL status request.
    pub fn is_fdl_status_request(self) -> Option<Address>
        ensures { result ≡ status_request_of self }
    {
        match self.h.fc {
            FunctionCode::Request {
                req: RequestType::FdlStatus,
                ..
            } => Some(self.h.sa),
            _ => None,
        }
    }

    pub fn is_response(self) -> Option<ResponseStatus>
        ensures { result ≡ response_of self }
    {
        match self.h.fc {
            FunctionCode::Request { .. } => None,
            FunctionCode::Response { status, .. } => Some(status),
        }
    }
}

#[derive(Clone, Copy, Debug, PartialEq, Eq)]
pub struct TokenTelegram {
    // Destination address
    pub da: Address,
    // Source address
    pub sa: Address,
}

impl TokenTelegram {
    pub fn new(da: Address, sa: Address) -> TokenTelegram
        ensures { (result.da ≡ da) × (result.sa ≡ sa) }
    {
        TokenTelegram { da, sa }
    }
}

#[derive(Clone, Copy, Debug, PartialEq, Eq)]
pub enum Telegram {
    Data(DataTelegram),
    Token(TokenTelegram),
    ShortConfirmation,
}

impl Telegram {
    pub fn source_address(self) -> Option<Address>
        ensures { result ≡ source_of self }
    {
        match self {
            Telegram::Data(t) => Some(t.h.sa),
            Telegram::Token(t) => Some(t.sa),
            Telegram::ShortConfirmation => None,
        }
    }

    pub fn destination_address(self) -> Option<Address>
        ensures { result ≡ destination_of self }
    {
        match self {
            Telegram::Data(t) => Some(t.h.da),
            Telegram::Token(t) => Some(t.da),
            Telegram::ShortConfirmation => None,
        }
    }
}
