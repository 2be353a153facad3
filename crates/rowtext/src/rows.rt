// The rows before the detail rows.
#![tactic(auto, using(crate::proofs::Texts::row_parts))]

ghost use Rattle.std.specs.Prelude.{◌≡◌, ◌∷◌, ◌++◌, ◌+◌, ◌≤◌, length};
ghost use Rattle.text.specs.Field.{comma};
ghost use Rattle.lines.specs.Text.{row};
ghost use Rattle.rowtext.specs.Text.{time_text, stamp_text, channel_text, line_one, line_two, line_three, line_four, line_thirty};

use calendar::{CLOCK_SIZE, DATE_SIZE};
use digits::Text;
use headers::time::{DAY_STOP, Stamp};

// A time, with the comma before it.
#[tactic(auto, using(crate::proofs::Texts::time_parts))]
fn put_time<const N: usize>(text: &mut Text<N>, date: u32, clock: u32)
    requires { length text.old + length (comma ∷ time_text date clock) ≤ N }
    ensures { text.new ≡ text.old ++ comma ∷ time_text date clock }
{
    text.put(b",");
    text.put_number(DATE_SIZE, date);
    text.put_number(CLOCK_SIZE, clock);
}

#[tactic(auto, unfolding(crate::specs::Text::stamp_text))]
fn put_stamp<const N: usize>(text: &mut Text<N>, stamp: Stamp)
    requires { length text.old + length (comma ∷ stamp_text stamp) ≤ N }
    ensures { text.new ≡ text.old ++ comma ∷ stamp_text stamp }
{
    put_time(text, stamp.date, stamp.clock);
}

// A channel by its number, as an address has it, with the comma before it: load is 0, generation 1.
fn put_channel<const N: usize>(text: &mut Text<N>, channel: usize)
    requires { length text.old + length (comma ∷ channel_text channel) ≤ N }
    ensures { text.new ≡ text.old ++ comma ∷ channel_text channel }
{
    text.put(if channel == 0 { b",4" } else { b",1" });
}

pub fn put_one<const N: usize>(text: &mut Text<N>, id: &[u8], channel: usize, date: u32)
    requires { length text.old + length (row (line_one id.now channel date)) ≤ N }
    ensures { text.new ≡ text.old ++ row (line_one id.now channel date) }
{
    text.put(b"00000001,");
    text.put(id);
    put_channel(text, channel);
    put_time(text, date, 0);
    put_time(text, date, DAY_STOP);
    text.put(b",Y,N\n");
}

pub fn put_two<const N: usize>(text: &mut Text<N>)
    requires { length text.old + length (row line_two) ≤ N }
    ensures { text.new ≡ text.old ++ row line_two }
{
    text.put(b"00000002,,,,,,,900,01,,,,,CST\n");
}

pub fn put_three<const N: usize>(text: &mut Text<N>, descriptor: &[u8])
    requires { length text.old + length (row (line_three descriptor.now)) ≤ N }
    ensures { text.new ≡ text.old ++ row (line_three descriptor.now) }
{
    text.put(b"00000003,");
    text.put(descriptor);
    text.put(b"\n");
}

pub fn put_four<const N: usize>(text: &mut Text<N>, stamp: Stamp)
    requires { length text.old + length (row (line_four stamp)) ≤ N }
    ensures { text.new ≡ text.old ++ row (line_four stamp) }
{
    text.put(b"00000004");
    put_stamp(text, stamp);
    text.put(b",M\n");
}

pub fn put_thirty<const N: usize>(text: &mut Text<N>, owner: &[u8])
    requires { length text.old + length (row (line_thirty owner.now)) ≤ N }
    ensures { text.new ≡ text.old ++ row (line_thirty owner.now) }
{
    text.put(b"00000030,ATTRIBUTE_VALUE_PAIRS,MRE=");
    text.put(owner);
    text.put(b",Sender=");
    text.put(owner);
    text.put(b",Receiver=183529049,REP=\n");
}
