// Every example row of use case 02 (source 002), valid and invalid, through the readers: the verdict, what the row gives, the row.
// Verdict 0 is a row that passes. Last come lines that no document has.
#![tactic(auto)]

mod show;

use print::heading;
use show::{detail, four, odd, one, thirty, three, two};
use std::io;

fn row_one(rt: &impl Print) -> io::Result<()> {
    heading(rt, "row one: ESI ID, channel, day")?;
    one(
        rt,
        "00000001,100000000000000,4,20080510000000,20080510235900,Y,N",
    )?;
    one(
        rt,
        "00000001,100000000000000,1,20080510000000,20080510235900,Y,N",
    )?;
    one(
        rt,
        "00000002,100000000000000,4,20080510000000,20080510235900,Y,N",
    )?;
    one(
        rt,
        "00000001,100000000000000,4,20080510000000,20080510235900",
    )?;
    one(
        rt,
        "00000001,100000000000000,,20080510000000,20080510235900,Y,N",
    )?;
    one(
        rt,
        "00000001,100000000000000,,20080510000000,20080510235900,Y,Y",
    )?;
    one(
        rt,
        "00000001,100000000000000,4,20080510000000,20080509235900,Y,N",
    )
}

fn row_two(rt: &impl Print) -> io::Result<()> {
    heading(rt, "row two")?;
    two(rt, "00000002,0,0,0,,0,,900,01,1,-1,0.0,0.0,CST")?;
    two(rt, "00000002,,,,,,,900,01,,,,,CST")?;
    two(rt, "00000002,0,0,0,0,0,0,900,01")?;
    two(rt, "00000002,,,,,,,600,01,,,,,CST")?;
    two(rt, "00000003,0,0,0,0,0,0,900,01,1,-1,0.0,0.0,CST")
}

fn row_three(rt: &impl Print) -> io::Result<()> {
    heading(rt, "row three")?;
    three(rt, "00000003,UNIQUETRANID0123456789")?;
    three(rt, "00000003,")?;
    three(rt, "00000002,UNIQUETRANID0123456789")?;
    three(rt, "00000004,UNIQUETRANID0123456789")
}

fn row_four(rt: &impl Print) -> io::Result<()> {
    heading(rt, "row four: stamp")?;
    four(rt, "00000004,20080511220000,M")?;
    four(rt, "00000004,20080511220000,A")?;
    four(rt, "00000004,20080511220000")?;
    four(rt, "00000004,,M")?;
    four(rt, "00000005,20080511220000,M")
}

fn row_thirty(rt: &impl Print) -> io::Result<()> {
    heading(rt, "row thirty: Sender")?;
    thirty(
        rt,
        "00000030,ATTRIBUTE_VALUE_PAIRS,MRE=666666666,Sender=666666666,Receiver=183529049,REP=111111111",
    )?;
    thirty(
        rt,
        "00000030,ATTRIBUTE_VALUE_PAIRS,MRE=666666666,Sender=666666666,Receiver=183529049,REP=",
    )?;
    thirty(
        rt,
        "00000030,ATTRIBUTE_VALUE_PAIRS,MRE=666666666,Sender=666666666,Receiver=183529049,",
    )?;
    thirty(
        rt,
        "00000030,ATTRIBUTE_VALUE_PAIRS,MRE=,Sender=666666666,Receiver=183529049,REP=111111111",
    )?;
    thirty(
        rt,
        "00000030,ATTRIBUTE_VALUE_PAIRS,MRE=666666666,666666666,Receiver=183529049,REP=111111111",
    )?;
    thirty(
        rt,
        "00000030,ATTRIBUTE_VALUE_PAIRS,MRE=666666666,Sender=666666666,Receiver=666666666,REP=111111111",
    )?;
    thirty(
        rt,
        "00000005,ATTRIBUTE_VALUE_PAIRS,MRE=666666666,Sender=666666666,Receiver=183529049,REP=111111111",
    )?;
    thirty(
        rt,
        "00000030,,MRE=666666666,Sender=666666666,Receiver=183529049,REP=111111111",
    )?;
    thirty(
        rt,
        "00000030,ATTRIBUTE_VALUE_PAIRS,MRE=666666666,Sender=666666666,Receiver=183529049,",
    )
}

fn detail_rows(rt: &impl Print) -> io::Result<()> {
    heading(rt, "detail rows: four watt hours with their status")?;
    detail(rt, 0, "10000000,68.29,A,,69.17,A,,67.99,A,,67.99,A,,")?;
    detail(rt, 1, "10000001,66.81,E,,66.52,E,,67.11,E,,67.11,E,,")?;
    detail(rt, 3, "10000003,67.11,A,,66.52,A,,66.81,E,,66.82,E,,")?;
    heading(rt, "all detailed rows have the same sort code")?;
    detail(rt, 0, "10000000,68.29,A,,69.17,A,,67.99,A,,67.99,A,,")?;
    detail(rt, 1, "10000000,68.29,A,,69.17,A,,67.99,A,,67.99,A,,")?;
    detail(rt, 2, "10000000,68.29,A,,69.17,A,,67.99,A,,67.99,A,,")?;
    heading(rt, "the empty value's comma is missing; one read a row")?;
    detail(rt, 0, "10000000,68.29,A,69.17,A,67.99,A,67.99,A,")?;
    detail(rt, 0, "10000000,68.29,A,,")?;
    detail(rt, 1, "10000001,69.17,A,,")?;
    detail(rt, 2, "10000002,67.99,A,,")?;
    detail(rt, 3, "10000003,67.99,A,,")?;
    heading(rt, "decimals, missing intervals, status codes")?;
    detail(rt, 0, "10000000,.2948,A,,.17,A,,.999,A,,.9,A,,")?;
    detail(rt, 4, "10000004,68.29,A,,,A,,,A,,67.99,A,,")?;
    detail(rt, 5, "10000005,68.29,A,,,,,,,,67.99,A,,")?;
    detail(rt, 1, "10000001,66.81,X,,66.52,Y,,67.11,Z,,67.11,9,,")
}

// No document has these. Of a line that can't be printed its length stands for it.
fn odd_lines(rt: &impl Print) -> io::Result<()> {
    heading(
        rt,
        "a blank before a value; 20 and 21 beside each other; a point with nothing behind it",
    )?;
    detail(rt, 0, "10000000, 69.47,A,,69.17,A,,67.99,A,,67.99,A,,")?;
    detail(
        rt,
        0,
        "10000000,1000000.1234,A,,69.17,A,,67.99,A,,67.99,A,,",
    )?;
    detail(rt, 0, "10000000,1000000.123,A,,69.17,A,,67.99,A,,67.99,A,,")?;
    detail(rt, 0, "10000000,69.,A,,69.17,A,,67.99,A,,67.99,A,,")?;
    heading(rt, "no byte, NUL, bytes over 127, 200,000 bytes")?;
    odd(rt, b"")?;
    odd(rt, b"\0")?;
    odd(rt, b"00000001,\xff\xfe,4,20080510000000,20080510235900,Y,N")?;
    odd(rt, &[b'0'; 200000])
}

fn main(rt: HostRuntime) -> io::Result<()> {
    row_one(&rt)?;
    row_two(&rt)?;
    row_three(&rt)?;
    row_four(&rt)?;
    row_thirty(&rt)?;
    detail_rows(&rt)?;
    odd_lines(&rt)
}
