// The subtrees of a Newick text into the nodes of a draft, by two readers that call each other; and a whole text.
#![tactic(auto)]

ghost use Rattle.std.specs.Prelude.{◌≡◌, ◌≤◌, length};
ghost use Rattle.bodies.specs.Nodes.{longest, most_nodes};
ghost use Rattle.subtrees.specs.Subtrees.{SubtreeRead, ListRead, Whole};

use numerals::{BadPlace, Got};

// The most brackets that are open at a time.
const DEEPEST: usize = 63;

// Reads the subtree at `at` into the draft, as node `count` under `parent`, with `depth` brackets open.
#[cycle(list_subtree)]
fn subtree(
    text: &[u8],
    at: usize,
    parent: u8,
    depth: usize,
    draft: &mut [u8],
    count: usize,
) -> Result<Got, BadPlace>
    requires { (at ≤ length text.now) × (depth ≤ 63) × (count ≤ most_nodes) × (length draft.old ≡ longest) }
    ensures { SubtreeRead text.now at parent depth count draft.old draft.new result }
{
    let i = numerals::skip(text, at);
    if i >= text.len() {
        return Err(BadPlace(i));
    }
    if text[i] == b'(' {
        if depth == DEEPEST || count == bodies::MOST_NODES {
            return Err(BadPlace(i));
        }
        bodies::put_inner(draft, count, parent);
        let g = list(text, i + 1, count as u8, depth + 1, draft, count + 1)?;
        return numerals::branch(text, g.end, g.nodes);
    }
    if !numerals::digit(text[i]) || count == bodies::MOST_NODES {
        return Err(BadPlace(i));
    }
    let x = numerals::number(text, i)?;
    bodies::put_leaf(draft, count, parent, x.value);
    numerals::branch(text, x.end, count + 1)
}

// Reads the subtrees of a bracket into the draft, from behind the bracket to behind the one that closes it. The bracket is node `parent`.
#[cycle(list_subtree)]
fn list(
    text: &[u8],
    at: usize,
    parent: u8,
    depth: usize,
    draft: &mut [u8],
    count: usize,
) -> Result<Got, BadPlace>
    requires { (at ≤ length text.now) × (depth ≤ 63) × (count ≤ most_nodes) × (length draft.old ≡ longest) }
    ensures { ListRead text.now at parent depth count draft.old draft.new result }
{
    let mut i = at;
    let mut n = count;
    loop {
        let g = subtree(text, i, parent, depth, draft, n)?;
        match text.get(g.end) {
            Some(b')') => {
                return Ok(Got {
                    end: g.end + 1,
                    nodes: g.nodes,
                });
            }
            Some(b',') => {
                i = g.end + 1;
                n = g.nodes;
            }
            _ => return Err(BadPlace(g.end)),
        }
    }
}

// Reads the whole text into the draft.
pub fn whole(text: &[u8], draft: &mut [u8]) -> Result<Got, BadPlace>
    requires { length draft.old ≡ longest }
    ensures { (length draft.new ≡ longest) × Whole text.now draft.new result }
{
    let g = subtree(text, 0, bodies::NONE, 0, draft, 0)?;
    if g.end >= text.len() || text[g.end] != b';' {
        return Err(BadPlace(g.end));
    }
    let end = numerals::skip(text, g.end + 1);
    if end < text.len() {
        return Err(BadPlace(end));
    }
    Ok(Got {
        end,
        nodes: g.nodes,
    })
}
