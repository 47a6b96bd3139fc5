// Which line a call gets, by its byte.
#![tactic(auto)]

ghost use Rattle.std.specs.Prelude.{◌≡◌, ◌≤◌, ◌/◌, length};
ghost use Rattle.writing.specs.Pages.{wrote_on};
ghost use Rattle.choosing.specs.Chosen.{call_line};

use writing::Text;

// What a call takes of the lent memory: its fields, each as long as it is, and where the sets of the fourth are laid out.
#[derive(Drop)]
pub struct Memory<'a> {
    pub first: &'a [u8],
    pub second: &'a mut [u8],
    pub third: &'a mut [u8],
    pub fourth: &'a [u8],
    pub list: &'a mut [u64],
    ghost fits: { length fourth.now / 8 ≤ length list.now },
}

// Makes the call with this byte, and writes its line.
pub fn call_line(out: &mut Text, byte: u8, n: usize, m: usize, memory: Memory)
    ensures { out.new ≡ wrote_on out.old (call_line byte n m memory.entry.first.now memory.entry.second.now memory.entry.third.now memory.entry.fourth.now) }
{
    let Memory {
        first,
        second,
        third,
        fourth,
        list,
    } = memory;
    match byte {
        b'r' => table_lines::read_line(out, first),
        b'l' => table_lines::list_line(out, first, second),
        b'e' => items::enter_line(out, n, first, second),
        b'o' => tree_lines::order_line(out, n, first, second),
        b'b' => table_lines::build_line(out, n, m as u64, first, second),
        b'v' => table_lines::veto_line(out, n, m as u64, first, second),
        b'n' => tree_lines::parse_line(out, n, first, second),
        b'w' => tree_lines::render_line(out, n, first, second),
        b'x' => items::loosen_line(out, n, first, second, third, fourth, list),
        _ => tree_lines::check_line(out, n, first, second),
    }
}
