// Document 01's table of facts, as one theorem: specs/Facts.antt states it, proofs/TheFacts.antt proves it. There is no code here.
#![tactic(auto)]
