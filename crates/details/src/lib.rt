// The detail rows of a data record: values in watt hours, four intervals to a row. Nothing here knows of a registry or a table.
//
//     let row = detail::read_detail(line, k)?;     // row k's intervals, each with its watt hours and its estimate mark; the error is
//                                                  // 11, 13, 14, then value by value 19 to 21, 18, 15
//
// For whoever changes it: the value rule is specs/Value.antt, and `value::read_value` is its only reader.
#![tactic(auto)]

pub mod detail;
pub mod value;
