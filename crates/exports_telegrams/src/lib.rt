// Reading and writing telegrams for programs in other languages: enums become numbers here.
#![tactic(auto)]

pub mod reading;
pub mod writing;
