// Putting a tree in house order: nodes in preorder, children by their lowest species.
#![tactic(auto)]

ghost use Rattle.std.specs.Prelude.{◌≡◌, ◌+◌, ◌*◌, ◌<◌, ◌≤◌, length};
ghost use Rattle.std.proofs.lemmas.List.Edits.{sets};
ghost use Rattle.trees.specs.Trees.{house};
ghost use Rattle.bodies.specs.Nodes.{nodes, width, most_nodes, body_length, Good};
ghost use Rattle.bodies.specs.Draws.{subtree, node_count, bytes, ordered, written};
ghost use Rattle.ordering.specs.Orders.{Orders};

use answers::Written;
use refusals::Refusal;

// Writes the tree under node i in house order, as node `at` under parent p. Returns the number of the next node.
fn put(tree: groups::Grouped, i: usize, p: u8, at: usize, room: &mut [u8]) -> usize
    requires i_bound { i < (nodes tree.body.now).count }
    requires i_bound_2 { at + node_count (subtree (nodes tree.body.now) i) ≤ most_nodes }
    requires i_in_bounds { body_length (at + node_count (subtree (nodes tree.body.now) i)) ≤ length room.old }
    ensures value { result ≡ at + node_count (subtree (nodes tree.entry.body.now) i) }
    ensures room_after { room.new ≡ sets room.old (width * at) (bytes (house (subtree (nodes tree.entry.body.now) i)) p at) }
{
    bodies::put_under(room, at, p, bodies::node_at(tree.body, i));
    let mut next = at + 1;
    for c in children::in_order(tree, i) {
        next = put(tree, c, at as u8, next, room);
    }
    next
}

// Writes the tree of a good body in house order to the front of the room. Returns the node count.
pub fn arrange(body: &[u8], room: &mut [u8]) -> usize
    requires good { Good 64 (nodes body.now) }
    requires count_nonzero { (0 < (nodes body.now).count) × ((nodes body.now).count ≤ most_nodes) }
    requires body_in_bounds { body_length (nodes body.now).count ≤ length room.old }
    ensures value { result ≡ (nodes body.now).count }
    ensures room_after { room.new ≡ written room.old (ordered body.now) }
{
    let mut groups = [0; bodies::MOST_NODES];
    groups::groups(body, &mut groups);
    let tree = groups::Grouped {
        body,
        groups: &groups,
    };
    put(tree, 0, bodies::NONE, 0, room)
}

// Writes a tree with n species at most in house order to the front of the room. A refusal leaves every byte as it was.
pub fn order(n: usize, body: &[u8], room: &mut [u8]) -> Result<Written, Refusal>
    ensures { Orders n body.now room.old result room.new }
{
    answers::look_count(n)?;
    answers::look_body(0, n, body)?;
    if room.len() < body.len() {
        return Err(Refusal::ShortRoom);
    }
    let nodes = arrange(body, room);
    Ok(Written { nodes })
}
