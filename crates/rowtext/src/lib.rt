// The rows of a record as texts, put one behind the other. Nothing here knows of a registry or a table.
//
//     rows::put_one(&mut text, id, channel, date);       // each behind what the text has
//     rows::put_two(&mut text);
//     ..
//     detail::put_detail(&mut text, k, &intervals);      // detail row k, from 0
//
// For whoever changes it: what is put is specs/Text.antt, line by line; the digits of every number come from `digits::put_digits` alone.
#![tactic(auto)]

pub mod detail;
pub mod lent;
pub mod rows;
