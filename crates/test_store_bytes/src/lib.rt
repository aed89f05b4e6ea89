// A store as 5,320 bytes and back, in the format of tests/reference/README.md. Nothing here is proved of the bytes but that the functions
// are safe and end; tests/held-stores and tests/call-lists compare the bytes with the reference's.
#![tactic(auto)]

mod as_bytes;
mod lane_bytes;
mod store_bytes;

pub use as_bytes::AsBytes;
