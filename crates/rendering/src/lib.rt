// A tree's body as Newick text, in house order, without lengths or blanks.
#![tactic(auto, using(writing::proofs::Writing::writes))]

ghost use Rattle.std.specs.Prelude.{◌≡◌, ◌<◌, ◌≤◌, length};
ghost use Rattle.trees.specs.Trees.{house};
ghost use Rattle.bodies.specs.Nodes.{nodes};
ghost use Rattle.bodies.specs.Draws.{subtree, written};
ghost use Rattle.writing.specs.Pages.{wrote_on};
ghost use Rattle.rendering.specs.Texts.{subtree_text};
ghost use Rattle.rendering.specs.Renders.{Renders};

use refusals::Refusal;

// The longest text.
pub const LONGEST: usize = 308;

// How many bytes were written to the front of the room.
#[derive(Clone, Copy)]
pub struct Text {
    pub length: usize,
}

// Writes the text of the tree under node i, in house order.
fn put(tree: groups::Grouped, i: usize, draft: &mut writing::Text)
    requires i_bound { i < (nodes tree.body.now).count }
    ensures { draft.new ≡ wrote_on draft.old (subtree_text (house (subtree (nodes tree.entry.body.now) i))) }
{
    let s = bodies::species(tree.body, i);
    if s != bodies::NONE {
        draft.decimal(u64::from(s));
        return;
    }
    let mut mark = b'(';
    for c in children::in_order(tree, i) {
        draft.push(mark);
        put(tree, c, draft);
        mark = b',';
    }
    draft.push(b')');
}

// Copies the text to the front of the room, byte by byte: where the bytes of a text lie is not known here, so that copy_from_slice would have who links the
// library bring memmove.
fn copy(text: &[u8], room: &mut [u8])
    requires { length text.now ≤ length room.old }
    ensures { room.new ≡ written room.old text.now }
{
    for i in 0..text.len() {
        room[i] = text[i];
    }
}

// Writes a tree with n species at most as Newick text to the front of the room. A refusal leaves every byte as it was: the text is written into a draft,
// which is copied once the room is known to be long enough.
pub fn render(n: usize, body: &[u8], room: &mut [u8]) -> Result<Text, Refusal>
    ensures { Renders n body.now room.old result room.new }
{
    answers::look_count(n)?;
    answers::look_body(0, n, body)?;
    let mut groups = [0; bodies::MOST_NODES];
    groups::groups(body, &mut groups);
    let tree = groups::Grouped {
        body,
        groups: &groups,
    };
    let mut bytes = [0; LONGEST];
    let mut draft = writing::Text::new(&mut bytes);
    put(tree, 0, &mut draft);
    draft.push(b';');
    let end = draft.len();
    if room.len() < end {
        return Err(Refusal::ShortRoom);
    }
    copy(draft.as_slice(), room);
    Ok(Text { length: end })
}
