// Everything that is claimed of the calls, in one file: specs/Claims.antt. proofs/Claims.antt proves each claim. There is no code here.
#![tactic(auto)]
