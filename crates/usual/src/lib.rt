// The quick way through the header rows: nearly every row one, two, three, four and thirty has one shape, with its parts at known places.
// A reader here tells such a row by a few tests and takes its parts at once; any other line goes to the reader of that name in `headers`.
// Both have the same promise, so that whoever reads a row may call either:
//
//     let one = usual::one::read_one(line)?;     // as of headers::one::read_one
//
// For whoever changes it: a row's rule is its definition in headers/specs. `usual_..` owes it only where it takes a line (specs/Answer.antt), so
// one that takes fewer lines is slower and still right; only the reader in headers gives verdicts. When a rule takes a new form that files will
// use, let `usual_..` take it too, or such files load more slowly. What stops a day is asked of `headers::time` and has no second place here. In
// rows one and thirty the tests of a shape are joined and none ends them early: they look at few bytes, and a branch at each would cost more. What
// the five readers do around `usual_..` is written in each: two of those answer a bool, and `map_or_else`, which would take the rest, wants an answer
// where `if let` wants none.
#![tactic(auto)]

pub mod four;
pub mod one;
pub mod thirty;
pub mod three;
pub mod two;
