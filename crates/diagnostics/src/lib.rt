// Extended diagnostics of a peripheral: what profirust's dp/diagnostics.rs has. Its `ManagedSlice` is a slice that the
// caller lends with each call, and the struct beside it keeps the length alone. What a block says is in crate `diagnostics_blocks`.
#![tactic(auto)]

pub mod store;
pub mod walk;

pub use store::ExtendedDiagnostics;
pub use walk::{ExtDiagBlock, ExtDiagBlockIter, Found};
