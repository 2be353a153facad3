// The header rows of a data record: one, two, three, four, thirty. One reader each, over one line; nothing here knows of a registry or
// a table. A reader takes any line (`lines::line::Line`) and answers with what the row gives, or with its verdict:
//
//     let one = one::read_one(line)?;     // its ESI ID is that very part of the line; the error is the first test that fails:
//                                         // 11, 13, 14, then the fields, then 16 and 17
//
// Each reads field by field; crate `usual` has a quick way through rows as nearly every file has them, with the same promises.
//
// For whoever changes it: a row's rule is its definition in specs/ (One.antt and so on) and nothing else. What stops a day is
// `time::stops_day`, which the quick reader asks too. A read's stamp is `time::Stamp`; row two's forms are the table in `two`.
#![tactic(auto)]

pub mod four;
pub mod one;
pub mod thirty;
pub mod three;
pub mod time;
pub mod two;
