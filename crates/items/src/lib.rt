// The items of a field, records or sets, of its bytes; and the lines of the two calls that take them.
#![tactic(auto)]

ghost use Rattle.std.specs.Prelude.{◌≡◌, ◌≤◌, ◌/◌, length};
ghost use Rattle.table_lines.specs.Lines.{enter_line};
ghost use Rattle.tree_lines.specs.Lines.{loosen_line};
ghost use Rattle.writing.specs.Pages.{wrote_on};
ghost use Rattle.items.specs.Items.{records_of, sets_of};

use writing::Text;

// The records that the bytes b are.
fn records(b: &[u8]) -> &[[u8; 3]]
    ensures { result.now ≡ records_of b.now }
{
    b.as_chunks::<3>().0
}

// Enters the records that the bytes b are.
pub fn enter_line(out: &mut Text, n: usize, b: &[u8], t: &mut [u8])
    ensures { out.new ≡ wrote_on out.old (enter_line n (records_of b.now) t.old) }
{
    table_lines::enter_line(out, n, records(b), t);
}

// Lays the bytes out as sets.
fn gather(b: &[u8], list: &mut [u64])
    requires { length list.old ≡ length b.now / 8 }
    ensures { list.new ≡ sets_of b.now }
{
    for (i, set) in list.iter_mut().enumerate() {
        *set = shapes::eight(b, 8 * i) as u64;
    }
}

// Loosens a tree, with a list that holds the sets that the bytes b are.
pub fn loosen_line(
    out: &mut Text,
    n: usize,
    t: &[u8],
    body: &[u8],
    room: &mut [u8],
    b: &[u8],
    list: &mut [u64],
)
    requires { length b.now / 8 ≤ length list.old }
    ensures { out.new ≡ wrote_on out.old (loosen_line n t.now body.now room.old (sets_of b.now)) }
{
    let sets = &mut list[..b.len() / 8];
    gather(b, sets);
    tree_lines::loosen_line(out, n, t, body, room, sets);
}
