// A node of a body is dropped: its children go to its parent, and what is left is put in house order.
#![tactic(auto)]

ghost use Rattle.std.specs.Prelude.{◌≡◌, ℕ, ◌-◌, ◌<◌, ◌≤◌, length, take};
ghost use Rattle.bodies.specs.Nodes.{body_length, longest, most_nodes, nodes, none};
ghost use Rattle.dropping.specs.Drafts.{HouseDraft, NodeDropped};
ghost use Rattle.dropping.specs.Without.{Without, new_parent, old_number};

// The number that node i had before node k went.
fn old_number(i: usize, k: usize) -> usize
    requires { i < most_nodes }
    ensures { result ≡ old_number k i }
{
    if i < k { i } else { i + 1 }
}

// The parent that a node gets in place of p once node k went, whose parent is `above`.
fn new_parent(p: u8, above: u8, k: usize) -> u8
    ensures { result ≡ new_parent k above p }
{
    let q = usize::from(p);
    if q == k {
        return above;
    }
    if q < k {
        return p;
    }
    p - 1
}

// The nodes of a body without node k, to the front of `out`: its children go to its parent.
fn leave_out(body: &[u8], k: usize, out: &mut [u8; bodies::LONGEST])
    requires { (0 < k) × (k < (nodes body.now).count) × ((nodes body.now).count ≤ most_nodes) × (length out.old ≡ longest) }
    ensures out_len { length out.new ≡ longest }
    ensures without { Without (nodes body.now) k (nodes (take (body_length ((nodes body.now).count - 1)) out.new)) }
{
    let count = bodies::node_count(body);
    let above = bodies::parent(body, k);
    bodies::put_under(out, 0, bodies::NONE, bodies::node_at(body, 0));
    for i in 1..count - 1 {
        let v = bodies::node_at(body, old_number(i, k));
        bodies::put_under(out, i, new_parent(v.parent, above, k), v);
    }
}

// Drops node k from the tree in the first m nodes of the draft, and puts what is left in house order.
pub fn drop_node(draft: &mut [u8], m: usize, k: usize)
    requires by_index { ((n : ℕ) × (n ≤ 64) × HouseDraft n m draft.old) × (length draft.old ≡ longest) }
    requires k_nonzero { (0 < k) × (k < m) × ((nodes draft.old).species k ≡ none) }
    ensures { (n : ℕ) → n ≤ 64 → HouseDraft n m draft.old → NodeDropped n m k draft.old draft.new }
{
    let mut less = [0; bodies::LONGEST];
    let end = bodies::body_length(m);
    leave_out(&draft[..end], k, &mut less);
    let less_end = bodies::body_length(m - 1);
    ordering::arrange(&less[..less_end], draft);
}
