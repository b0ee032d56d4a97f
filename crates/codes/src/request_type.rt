// The request types and their numbers. Promise: `request_type_of`, `request_number` and `expects_reply` in specs/RequestTypes.antt.
ghost use Rattle.std.specs.Prelude.{◌≡◌};
ghost use Rattle.codes.specs.RequestTypes.{request_number, request_type_of, expects_reply};

#[derive(Clone, Copy, Debug, PartialEq, Eq)]
pub enum RequestType {
    // Clock value
    ClockValue = 0x80,
    // Time event
    TimeEvent = 0,
    // SDA (Send Data Acknowledged) with low priority
    SdaLow = 3,
    // SDN (Send Data Not acknowledged) with low priority
    SdnLow = 4,
    // SDA (Send Data Acknowledged) with high priority
    SdaHigh = 5,
    // SDN (Send Data Not acknowledged) with high priority
    SdnHigh = 6,
    // SRD (Send Request Data) with multicast reply
    MulticastSrd = 7,
    // Request FDL status
    FdlStatus = 9,
    // SRD (Send Request Data) with low priority
    SrdLow = 12,
    // SRD (Send Request Data) with high priority
    SrdHigh = 13,
    // Request ident
    Ident = 14,
    // Request LSAP status (deprecated)
    LsapStatus = 15,
}

impl RequestType {
    // profirust's call and answer: no `TryFrom` in its place.
    #[tactic(auto, unfolding(crate::specs::RequestTypes::request_type_of))]
    pub fn from_u8(b: u8) -> Option<RequestType>
        ensures { result ≡ request_type_of b }
    {
        match b {
            0x80 => Some(RequestType::ClockValue),
            0 => Some(RequestType::TimeEvent),
            3 => Some(RequestType::SdaLow),
            4 => Some(RequestType::SdnLow),
            5 => Some(RequestType::SdaHigh),
            6 => Some(RequestType::SdnHigh),
            7 => Some(RequestType::MulticastSrd),
            9 => Some(RequestType::FdlStatus),
            12 => Some(RequestType::SrdLow),
            13 => Some(RequestType::SrdHigh),
            14 => Some(RequestType::Ident),
            15 => Some(RequestType::LsapStatus),
            _ => None,
        }
    }

    // The number of the type: Rust's `self as u8`.
    pub fn number(self) -> u8
        ensures { result ≡ request_number self }
    {
        self as u8
    }

    pub fn expects_reply(self) -> bool
        ensures { result ≡ expects_reply self }
    {
        match self {
            RequestType::ClockValue
            | RequestType::TimeEvent
            | RequestType::SdnLow
            | RequestType::SdnHigh => false,
            RequestType::SdaLow
            | RequestType::SdaHigh
            | RequestType::MulticastSrd
            | RequestType::FdlStatus
            | RequestType::SrdLow
            | RequestType::SrdHigh
            | RequestType::Ident
            | RequestType::LsapStatus => true,
        }
    }
}
