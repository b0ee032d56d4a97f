use ground::{Address, Sap};

// The header of a data telegram, with the byte of its function code in the place of the code: a caller that has the byte is spared
// decoding it, and the writer encoding it again. (A type of its own beside `DataTelegramHeader`: that one is document 01's, with the field `fc`
// that the definitions and theorems of reading name.)
#[derive(Clone, Copy, Debug, PartialEq, Eq)]
pub struct CodedHeader {
    // Destination address
    pub da: Address,
    // Source address
    pub sa: Address,
    // Destination service access point
    pub dsap: Option<Sap>,
    // Source service access point
    pub ssap: Option<Sap>,
    // Function code, as a byte
    pub code: u8,
}
