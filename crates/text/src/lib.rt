// Bytes, fields, numbers and identifiers: what the row readers and the registry share. Every function takes any bytes; the few that
// ask something of them say so in a `requires`, and are called by the crates above only.
#![tactic(auto)]

pub mod bytes;
pub mod cutting;
pub mod fields;
pub mod names;
pub mod numbers;
