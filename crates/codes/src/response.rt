// A response's state and status, and their numbers. Promise: `state_of`, `state_number`, `status_of` and `status_number` in specs/Responses.antt.
ghost use Rattle.std.specs.Prelude.{◌≡◌};
ghost use Rattle.codes.specs.Responses.{state_number, state_of, status_number, status_of};

#[derive(Clone, Copy, Debug, PartialEq, Eq)]
pub enum ResponseState {
    // Slave
    Slave = 0,
    // Master is not ready
    MasterNotReady = 1,
    // Master is ready but has no token
    MasterWithoutToken = 2,
    // Master is ready and in token ring
    MasterInRing = 3,
}

impl ResponseState {
    // profirust's call and answer: no `TryFrom` in its place.
    #[tactic(auto, unfolding(crate::specs::Responses::state_of))]
    pub fn from_u8(b: u8) -> Option<ResponseState>
        ensures { result ≡ state_of b }
    {
        match b {
            0 => Some(ResponseState::Slave),
            1 => Some(ResponseState::MasterNotReady),
            2 => Some(ResponseState::MasterWithoutToken),
            3 => Some(ResponseState::MasterInRing),
            _ => None,
        }
    }

    // The number of the state: Rust's `self as u8`.
    pub fn number(self) -> u8
        ensures { result ≡ state_number self }
    {
        self as u8
    }
}

#[derive(Clone, Copy, Debug, PartialEq, Eq)]
pub enum ResponseStatus {
    // OK
    Ok = 0,
    // UE = User error
    UserError = 1,
    // RR = No resources
    NoResources = 2,
    // RS = SAP not enabled
    SapNotEnabled = 3,
    // DL = Data Low
    DataLow = 8,
    // NR = No response data ready
    NoDataReady = 9,
    // DH = Data High
    DataHigh = 10,
    // RDL = Data not received and data low
    NotReceivedDataLow = 12,
    // RDH = Data not received and data high
    NotReceivedDataHigh = 13,
}

impl ResponseStatus {
    // profirust's call and answer: no `TryFrom` in its place.
    #[tactic(auto, unfolding(crate::specs::Responses::status_of))]
    pub fn from_u8(b: u8) -> Option<ResponseStatus>
        ensures { result ≡ status_of b }
    {
        match b {
            0 => Some(ResponseStatus::Ok),
            1 => Some(ResponseStatus::UserError),
            2 => Some(ResponseStatus::NoResources),
            3 => Some(ResponseStatus::SapNotEnabled),
            8 => Some(ResponseStatus::DataLow),
            9 => Some(ResponseStatus::NoDataReady),
            10 => Some(ResponseStatus::DataHigh),
            12 => Some(ResponseStatus::NotReceivedDataLow),
            13 => Some(ResponseStatus::NotReceivedDataHigh),
            _ => None,
        }
    }

    // The number of the status: Rust's `self as u8`.
    pub fn number(self) -> u8
        ensures { result ≡ status_number self }
    {
        self as u8
    }
}
