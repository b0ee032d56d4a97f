// The settings text of an order link: `own=2`, `peer=5`, `tries=2`, read and written.
#![tactic(auto)]

mod line;
pub mod settings;

pub use settings::{Settings, read_settings, write_settings};
