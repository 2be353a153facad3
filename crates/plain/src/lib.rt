// The plain loader of document 01, and demand 3: definitions and laws; the code of the calls is above this crate. Read specs/Claim.antt first: it is the
// whole claim.
#![tactic(auto)]
