// The names of function codes as programs print them: those of the library's enums, which are profirust's. Like `line_text`, support code of
// programs. By a `match` and not by `Debug`, whose text nobody owes to those who read these programs' output.
// Promises: specs/Names.antt.
#![tactic(auto)]

ghost use Rattle.std.specs.Prelude.{◌≡◌};
ghost use Rattle.code_names.specs.Names.{request_type_name, frame_count_bit_name, response_state_name, response_status_name};

use codes::{FrameCountBit, RequestType, ResponseState, ResponseStatus};

pub fn request_type(req: RequestType) -> &'static str
    ensures { result.now ≡ request_type_name req }
{
    match req {
        RequestType::ClockValue => "ClockValue",
        RequestType::TimeEvent => "TimeEvent",
        RequestType::SdaLow => "SdaLow",
        RequestType::SdnLow => "SdnLow",
        RequestType::SdaHigh => "SdaHigh",
        RequestType::SdnHigh => "SdnHigh",
        RequestType::MulticastSrd => "MulticastSrd",
        RequestType::FdlStatus => "FdlStatus",
        RequestType::SrdLow => "SrdLow",
        RequestType::SrdHigh => "SrdHigh",
        RequestType::Ident => "Ident",
        RequestType::LsapStatus => "LsapStatus",
    }
}

pub fn frame_count_bit(fcb: FrameCountBit) -> &'static str
    ensures { result.now ≡ frame_count_bit_name fcb }
{
    match fcb {
        FrameCountBit::First => "First",
        FrameCountBit::High => "High",
        FrameCountBit::Low => "Low",
        FrameCountBit::Inactive => "Inactive",
    }
}

pub fn response_state(state: ResponseState) -> &'static str
    ensures { result.now ≡ response_state_name state }
{
    match state {
        ResponseState::Slave => "Slave",
        ResponseState::MasterNotReady => "MasterNotReady",
        ResponseState::MasterWithoutToken => "MasterWithoutToken",
        ResponseState::MasterInRing => "MasterInRing",
    }
}

pub fn response_status(status: ResponseStatus) -> &'static str
    ensures { result.now ≡ response_status_name status }
{
    match status {
        ResponseStatus::Ok => "Ok",
        ResponseStatus::UserError => "UserError",
        ResponseStatus::NoResources => "NoResources",
        ResponseStatus::SapNotEnabled => "SapNotEnabled",
        ResponseStatus::DataLow => "DataLow",
        ResponseStatus::NoDataReady => "NoDataReady",
        ResponseStatus::DataHigh => "DataHigh",
        ResponseStatus::NotReceivedDataLow => "NotReceivedDataLow",
        ResponseStatus::NotReceivedDataHigh => "NotReceivedDataHigh",
    }
}
