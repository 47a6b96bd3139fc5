// The turns of loosening: while a group is not earned, the first such one in house order is dropped.
#![tactic(auto)]

ghost use Rattle.std.specs.Prelude.{◌≡◌, false, ◌<◌, ◌≤◌, IfSome, length};
ghost use Rattle.std.proofs.Math.Bool.{So};
ghost use Rattle.sets.specs.Species.{Below};
ghost use Rattle.trees.specs.Loosen.{loosen_in};
ghost use Rattle.trees.specs.Trees.{Tree, under, well_formed};
ghost use Rattle.tables.specs.Bytes.{entered};
ghost use Rattle.bodies.specs.Draws.{body_of};
ghost use Rattle.bodies.specs.Nodes.{Good, bad_length, longest, nodes};
ghost use Rattle.dropping.specs.Drafts.{HouseDraft, draft_tree};
ghost use Rattle.easing.specs.Eases.{eased, laid_out, lent, tally};
ghost use Rattle.easing.specs.Turns.{FindsUnearned, Turned};

use groups::{Drawing, Grouped};

// How many nodes the final tree has, and how many sets were dropped.
#[derive(Clone, Copy)]
pub struct Tally {
    pub nodes: usize,
    pub dropped: usize,
}

// A node whose group is not earned, and the group.
#[derive(Clone, Copy)]
struct Unearned {
    node: usize,
    group: u64,
}

// The first node of a body whose group is not earned by the table, with R worked out for this body.
fn find_unearned(n: usize, t: &[u8], body: &[u8]) -> Option<Unearned>
    requires { (n ≤ 64) × Good n (nodes body.now) × (bad_length (length body.now) ≡ false) }
    ensures node_bound { IfSome result (λ x. x.node < (nodes body.now).count) }
    ensures finds_unearned { (T : Tree) → So (well_formed T) → Below n (under T) → body.now ≡ body_of T → FindsUnearned (entered t.now) n T result }
{
    let mut groups = [0; bodies::MOST_NODES];
    let mut meets = [0; groups::CELLS];
    let whole = groups::draw(body, &mut groups, &mut meets);
    let drawing = Drawing {
        whole,
        meets: &meets,
    };
    let mut masks = [0; groups::CELLS];
    masks::relate(t, n, drawing, &mut masks);
    let grouped = Grouped {
        body,
        groups: &groups,
    };
    let node = earned::first_unearned(grouped, &masks)?;
    let group = groups[node];
    Some(Unearned { node, group })
}

// Drops from the tree in the first m nodes of the draft the first group that is not earned, again and again until each is. The sets go to the list.
fn turns(n: usize, t: &[u8], draft: &mut [u8], m: usize, list: &mut [u64]) -> Tally
    requires { (n ≤ 64) × HouseDraft n m draft.old × (length draft.old ≡ longest) × (62 ≤ length list.old) }
    ensures nodes_le_m { (result.nodes ≤ m) × (length draft.new ≡ longest) }
    ensures turned { Turned (loosen_in (entered t.now) n n (draft_tree m draft.old)) list.old result draft.new list.new }
{
    let mut nodes = m;
    let mut dropped = 0;
    while let Some(x) = find_unearned(n, t, &draft[..bodies::body_length(nodes)]) {
        list[dropped] = x.group;
        dropped += 1;
        dropping::drop_node(draft, nodes, x.node);
        nodes -= 1;
    }
    Tally { nodes, dropped }
}

// Loosens the tree of a good body: in a draft of its own, since the candidate may have more nodes than the final tree, and nothing behind that may change.
pub fn ease(n: usize, t: &[u8], body: &[u8], room: &mut [u8], list: &mut [u64]) -> Tally
    requires n_bound { (n ≤ 64) × Good n (nodes body.now) × (bad_length (length body.now) ≡ false) }
    requires body_in_bounds { (length body.now ≤ length room.old) × (62 ≤ length list.old) }
    ensures value { result ≡ tally (eased n t.now body.now) }
    ensures list_after { lent room.new list.new ≡ laid_out (eased n t.now body.now) (lent room.old list.old) }
{
    let mut draft = [0; bodies::LONGEST];
    let m = ordering::arrange(body, &mut draft);
    let r = turns(n, t, &mut draft, m, list);
    bodies::copy(&draft, r.nodes, room);
    r
}
