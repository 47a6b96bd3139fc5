// A call that was read is made, and its line written behind the text that waits.
#![tactic(auto)]

ghost use Rattle.std.specs.Prelude.{◌≡◌, ◌⊎◌, ◌+◌, ◌/◌, ◌≤◌, [], length, IfOk};
ghost use Rattle.writing.specs.Pages.{wrote_on};
ghost use Rattle.calls.specs.Calls.{Inside, fields_of};
ghost use Rattle.choosing.specs.Chosen.{line_of};
ghost use Rattle.making.specs.Made.{Waits, longest_line, made_line};

use calls::{Call, NoCall};
use choosing::Memory;
use writing::Text;

// Makes a call, and writes its line.
fn line(
    out: &mut Text,
    call: &Call,
    first: &[u8],
    second: &mut [u8],
    third: &mut [u8],
    fourth: &[u8],
    list: &mut [u64],
)
    requires { Inside call.now first.now second.old third.old fourth.now × (length fourth.now / 8 ≤ length list.old) }
    ensures { out.new ≡ wrote_on out.old (line_of call.now.byte call.now.numbers (fields_of call.now first.now second.old third.old fourth.now)) }
{
    let [n, m, _] = call.numbers;
    let [i, j, k, l] = call.lengths;
    let memory = Memory {
        first: &first[..i],
        second: &mut second[..j],
        third: &mut third[..k],
        fourth: &fourth[..l],
        list,
    };
    choosing::call_line(out, call.byte, n, m, memory);
}

// Prints the text that waits, where so many bytes may not fit behind it.
fn make_room(out: &mut Text, room: usize, line: usize)
    requires { (room ≡ out.old.room) × (line ≤ room) }
    ensures room { length out.new.text + line ≤ out.new.room }
    ensures waits { (out.new ≡ out.old) ⊎ (out.new ≡ record out.old { text = [] }) }
{
    if out.len() > room - line {
        io::write_all(1, out.as_slice());
        out.clear();
    }
}

// Makes a call, whose fields stand at the fronts of what is lent, and writes its line behind the text that waits; of one that was cut the line is `cut`, and where
// the input has ended there is none.
#[tactic(auto, using(crate::proofs::Made::waits_none, crate::proofs::Made::waits_cut))]
pub fn make(out: &mut Text, call: &Result<Call, NoCall>, memory: Memory)
    requires inside { IfOk call.now (λ c. Inside c memory.first.now memory.second.now memory.third.now memory.fourth.now) }
    requires room { longest_line (length memory.second.now) (length memory.third.now) (length memory.fourth.now) ≤ out.old.room }
    ensures { Waits out.old (made_line call.now memory.entry.first.now memory.entry.second.now memory.entry.third.now memory.entry.fourth.now) out.new }
{
    let Memory {
        first,
        second,
        third,
        fourth,
        list,
    } = memory;
    let room = out.room();
    match call {
        Ok(call) => {
            let [_, j, k, l] = call.lengths;
            make_room(out, room, 21 * (j + k + l / 8) + 150);
            line(out, call, first, second, third, fourth, list);
        }
        Err(NoCall::Cut) => {
            make_room(out, room, 4);
            out.word(b"cut\n");
        }
        Err(NoCall::End) => {}
    }
}
