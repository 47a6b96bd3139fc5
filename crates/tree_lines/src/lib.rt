// The line of each call that takes a tree, as a body or as text: the operation is called, and its reply is written, with what it left in the lent room or list.
#![tactic(auto)]

ghost use Rattle.std.specs.Prelude.{◌≡◌};
ghost use Rattle.ordering.specs.Orders.{order_after};
ghost use Rattle.parsing.specs.Parses.{parse_after};
ghost use Rattle.rendering.specs.Renders.{render_after};
ghost use Rattle.easing.specs.Eases.{lent};
ghost use Rattle.loosening.specs.Loosens.{loosen_after};
ghost use Rattle.writing.specs.Pages.{wrote_on};
ghost use Rattle.tree_lines.specs.Lines.{order_line, parse_line, render_line, check_line, loosen_line};

use writing::Text;

// Puts a tree in house order, and writes the line of the call.
pub fn order_line(out: &mut Text, n: usize, body: &[u8], room: &mut [u8])
    ensures writes { out.new ≡ wrote_on out.old (order_line n body.now room.old) }
    ensures room_after { room.new ≡ order_after n body.now room.old }
{
    let a = ordering::order(n, body, room);
    reply_text::put_barred(out, replies::answer(a), room);
}

// Reads a Newick text into a body, and writes the line of the call.
pub fn parse_line(out: &mut Text, n: usize, text: &[u8], room: &mut [u8])
    ensures writes { out.new ≡ wrote_on out.old (parse_line n text.now room.old) }
    ensures room_after { room.new ≡ parse_after n text.now room.old }
{
    let a = parsing::parse(n, text, room);
    reply_text::put_barred(out, replies::answer(a), room);
}

// Writes a tree as Newick text, and the line of the call.
pub fn render_line(out: &mut Text, n: usize, body: &[u8], room: &mut [u8])
    ensures writes { out.new ≡ wrote_on out.old (render_line n body.now room.old) }
    ensures room_after { room.new ≡ render_after n body.now room.old }
{
    let a = rendering::render(n, body, room);
    reply_text::put_barred(out, replies::answer(a), room);
}

// Checks a tree against the table t, and writes the line of the call.
pub fn check_line(out: &mut Text, n: usize, t: &[u8], body: &[u8])
    ensures { out.new ≡ wrote_on out.old (check_line n t.now body.now) }
{
    reply_text::put_line(out, replies::answer(checking::check(n, t, body)));
}

// Loosens a tree by the table t, and writes the line of the call.
pub fn loosen_line(
    out: &mut Text,
    n: usize,
    t: &[u8],
    body: &[u8],
    room: &mut [u8],
    list: &mut [u64],
)
    ensures writes { out.new ≡ wrote_on out.old (loosen_line n t.now body.now room.old list.old) }
    ensures list_after { lent room.new list.new ≡ loosen_after n t.now body.now (lent room.old list.old) }
{
    let a = loosening::loosen(n, t, body, room, list);
    reply_text::put_both(out, replies::answer(a), room, list);
}
