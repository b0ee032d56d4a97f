// The header of a data telegram.
use codes::FunctionCode;
use ground::{Address, Sap};

#[derive(Clone, Copy, Debug, PartialEq, Eq)]
pub struct DataTelegramHeader {
    // Destination address
    pub da: Address,
    // Source address
    pub sa: Address,
    // Destination service access point
    pub dsap: Option<Sap>,
    // Source service access point
    pub ssap: Option<Sap>,
    // Function code
    pub fc: FunctionCode,
}
