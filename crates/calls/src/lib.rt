// A call that a program makes of a function, and what the function's contract tells of it: specs/RealCall.antt. There is no code here.
#![tactic(auto)]
