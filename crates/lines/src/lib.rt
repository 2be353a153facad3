// Lines, and what the readers of all rows share. Nothing here knows of a registry or a table.
//
// `Line::ended` makes a line of the bytes before an LF: `without_cr` drops the one CR at their end, and `ends_with_cr` says whether it was
// there, since a long line is counted with it. Bytes that no LF ended are a line as they stand. `kind_of` tells empty lines, openers and
// detail lines, by the bytes without the CR.
//
//     let line = Line::ended(&piece[at..end]);     // the LF is at `end`; `Line { body, cr: false }` where no LF ended the bytes
//     let mut fields = row::begin(line, b"00000003", 2)?;     // the code is the first of them
//
// `end::line_end` finds the LF of a line in a piece, and `keep::keep` keeps the bytes of one whose LF has not come.
// A row's reader begins with `row::begin`: the verdicts 11, 13 and 14, in this order, and then the row's fields.
//
// For whoever changes it: the limit of a line is `LINE_LIMIT`, a verdict is an error of `report::verdict::Verdict`.
#![tactic(auto)]

pub mod end;
pub mod keep;
pub mod line;
pub mod row;
