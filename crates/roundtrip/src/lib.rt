// A written record reads back to the cell that it came from: specs/RoundTrip.antt states it, proofs/RoundTrip.antt proves it. There is no code here.
#![tactic(auto)]
