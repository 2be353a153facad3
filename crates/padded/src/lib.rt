// Identifiers as the registry has them, 64 bytes of ESI ID and 13 of DUNS number: tests of their padding, and their order by bytes.
//
// For whoever changes it: every call of the loader tests the whole registry with these functions, so the loops over padding run to a fixed
// end and do not stop early, and `compare` goes by words of eight bytes; the compiler then takes many bytes at once.
#![tactic(auto)]

pub mod order;
pub mod padding;
