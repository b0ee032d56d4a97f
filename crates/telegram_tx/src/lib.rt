// Writing telegrams: profirust's `TelegramTx`, into a buffer that the caller lends.
#![tactic(auto)]

mod coded;
pub mod tx;

pub use telegram_bytes::CodedHeader;
pub use tx::{
    TelegramTxResponse, send_coded_telegram, send_data_telegram, send_fdl_status_request,
    send_fdl_status_response, send_short_confirmation, send_token_telegram,
};
