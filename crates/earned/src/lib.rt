// Earned groups: is each group of a tree but the root's joined by the links on it and any one sibling group?
#![tactic(auto)]

ghost use Rattle.std.specs.Prelude.{◌≡◌, true, ◌↔◌, ◌<◌, IfSome};
ghost use Rattle.trees.specs.Check.{Earned};
ghost use Rattle.trees.specs.Triplets.{Triplets, Proper};
ghost use Rattle.bodies.specs.Draws.{tree_of};
ghost use Rattle.bodies.specs.Nodes.{nodes};
ghost use Rattle.masks.specs.Masks.{Masks};
ghost use Rattle.earned.specs.Siblings.{FirstUnearnedNode, SaysBeside};

// Is the group of node i joined beside the group of each sibling?
fn beside_all(tree: groups::Grouped, masks: &[u64; groups::CELLS], i: usize) -> bool
    requires { i < (nodes tree.body.now).count }
    ensures { (E : Triplets) → Proper E → Masks E masks.now → SaysBeside E (nodes tree.entry.body.now) i result }
{
    let above = bodies::parent(tree.body, i);
    for j in 1..bodies::node_count(tree.body) {
        if j != i
            && bodies::parent(tree.body, j) == above
            && !masks::beside(masks, tree.groups[i], tree.groups[j])
        {
            return false;
        }
    }
    true
}

// The first node but the root whose group is not joined beside every sibling's. A leaf's group always is.
pub fn first_unearned(tree: groups::Grouped, masks: &[u64; groups::CELLS]) -> Option<usize>
    ensures upper_bound { IfSome result (λ i. i < (nodes tree.entry.body.now).count) }
    ensures first_unearned_node { (E : Triplets) → Proper E → Masks E masks.now → FirstUnearnedNode E (nodes tree.entry.body.now) result }
{
    for i in 1..bodies::node_count(tree.body) {
        if bodies::species(tree.body, i) == bodies::NONE && !beside_all(tree, masks, i) {
            return Some(i);
        }
    }
    None
}

// Is each group but the root's joined beside every sibling?
pub fn earned(tree: groups::Grouped, masks: &[u64; groups::CELLS]) -> bool
    requires { 0 < (nodes tree.body.now).count }
    ensures { (E : Triplets) → Proper E → Masks E masks.now → (result ≡ true) ↔ Earned E (tree_of tree.entry.body.now) }
{
    first_unearned(tree, masks).is_none()
}
