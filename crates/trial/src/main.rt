// Reads calls of the operations on standard input, and prints the line of each.
#![tactic(auto)]

ghost use Rattle.std.specs.Prelude.{◌≡◌, ◌/◌, ◌≤◌, length};
ghost use Rattle.making.specs.Made.{longest_line};
ghost use Rattle.trial.specs.OneCall.{OneCall};

use calls::Fields;
use choosing::Memory;
use input::Reader;
use std::ops::ControlFlow;
use writing::Text;

// How many calls are made at most: the program ends.
const MOST_CALLS: u64 = 9223372036854775808;

// How many sets a field has at most, and how much text waits.
const MOST_SETS: usize = 8192;

const MOST_TEXT: usize = 3145728;

// Reads one call, makes it, and writes its line behind the text that waits. It breaks off where the input has ended or the call was cut.
fn one_call(
    reader: &mut Reader,
    first: &mut [u8],
    second: &mut [u8],
    third: &mut [u8],
    fourth: &mut [u8],
    list: &mut [u64],
    out: &mut Text,
) -> ControlFlow<()>
    requires list { length fourth.old / 8 ≤ length list.old }
    requires room { longest_line (length second.old) (length third.old) (length fourth.old) ≤ out.old.room }
    ensures { OneCall reader.old reader.new out.old out.new result }
{
    let mut fields = Fields {
        first: &mut *first,
        second: &mut *second,
        third: &mut *third,
        fourth: &mut *fourth,
    };
    let call = calls::read_call(reader, &mut fields);
    let memory = Memory {
        first,
        second,
        third,
        fourth,
        list,
    };
    making::make(out, &call, memory);
    match call {
        Ok(_) => ControlFlow::Continue(()),
        Err(_) => ControlFlow::Break(()),
    }
}

// Makes one call after the other.
fn answer(
    reader: &mut Reader,
    first: &mut [u8],
    second: &mut [u8],
    third: &mut [u8],
    fourth: &mut [u8],
    list: &mut [u64],
    out: &mut Text,
)
    requires list { length fourth.old / 8 ≤ length list.old }
    requires room { longest_line (length second.old) (length third.old) (length fourth.old) ≤ out.old.room }
    ensures { out.new.room ≡ out.old.room }
{
    for _ in 0..MOST_CALLS {
        if one_call(reader, first, second, third, fourth, list, out).is_break() {
            return;
        }
    }
}

// Room for as many sets as 65,536 bytes are.
fn no_sets() -> [u64; MOST_SETS]
    ensures { length result ≡ MOST_SETS }
{
    [0; MOST_SETS]
}

// Room for the longest line.
fn no_text() -> [u8; MOST_TEXT]
    ensures { length result ≡ MOST_TEXT }
{
    [0; MOST_TEXT]
}

fn main(rt: HostRuntime) {
    let mut buffer = io::large_buffer();
    let mut first = io::large_buffer();
    let mut second = io::large_buffer();
    let mut third = io::large_buffer();
    let mut fourth = io::large_buffer();
    let mut list = no_sets();
    let mut text = no_text();
    let mut reader = Reader::new(rt.stdin(), &mut buffer);
    let mut out = Text::new(&mut text);
    answer(
        &mut reader,
        &mut first,
        &mut second,
        &mut third,
        &mut fourth,
        &mut list,
        &mut out,
    );
    io::write_all(1, out.as_slice());
}
