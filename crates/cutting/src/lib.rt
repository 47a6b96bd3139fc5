// A paper's tree cut to a set of species, as Newick text in the order of the paper's own line.
#![tactic(auto, using(writing::proofs::Writing::writes))]

ghost use Rattle.std.specs.Prelude.{◌≡◌, [], ◌∷◌, ◌++◌, ◌<◌, ◌≤◌};
ghost use Rattle.sets.specs.Sets.{has};
ghost use Rattle.trees.specs.Cut.{Touches};
ghost use Rattle.trees.specs.Trees.{house};
ghost use Rattle.bodies.specs.Nodes.{nodes, most_nodes, Good};
ghost use Rattle.bodies.specs.Draws.{subtree, tree_of};
ghost use Rattle.writing.specs.Pages.{wrote_on};
ghost use Rattle.cutting.specs.Descends.{Descends};
ghost use Rattle.cutting.specs.Texts.{cut_text};

use writing::Text;

// From node i down to the node that has all species of `set` under i, and no child that has them all.
fn descend(tree: groups::Grouped, i: usize, set: u64) -> usize
    requires { i < (nodes tree.body.now).count }
    ensures { Descends (nodes tree.entry.body.now) (has set) i result (nodes tree.entry.body.now).count }
{
    let own = sets::meet(tree.groups[i], set);
    let mut top = i;
    for j in i + 1..bodies::node_count(tree.body) {
        if bodies::parent(tree.body, j) as usize == top && sets::subset(own, tree.groups[j]) {
            top = j;
        }
    }
    top
}

// Writes the text of the tree under node i, in house order, cut to the species of `set`.
fn put(tree: groups::Grouped, i: usize, set: u64, out: &mut Text)
    requires i_bound { i < (nodes tree.body.now).count }
    requires touches { Touches (has set) (subtree (nodes tree.body.now) i) }
    ensures { out.new ≡ wrote_on out.old (cut_text (has set) (house (subtree (nodes tree.entry.body.now) i))) }
{
    let top = descend(tree, i, set);
    let s = bodies::species(tree.body, top);
    if s != bodies::NONE {
        out.decimal(u64::from(s));
        return;
    }
    let mut mark = b'(';
    for c in children::in_order(tree, top) {
        if sets::meet(tree.groups[c], set) != 0 {
            out.push(mark);
            put(tree, c, set, out);
            mark = b',';
        }
    }
    out.push(b')');
}

// Writes a paper's tree cut to the species of `set`, of which it has one or more, with a semicolon last.
pub fn put_cut(body: &[u8], set: u64, out: &mut Text)
    requires good { Good 64 (nodes body.now) }
    requires count_nonzero { (0 < (nodes body.now).count) × ((nodes body.now).count ≤ most_nodes) }
    requires touches { Touches (has set) (tree_of body.now) }
    ensures { out.new ≡ wrote_on out.old (cut_text (has set) (house (tree_of body.now)) ++ (59 ∷ [])) }
{
    let mut groups = [0; bodies::MOST_NODES];
    groups::groups(body, &mut groups);
    let tree = groups::Grouped {
        body,
        groups: &groups,
    };
    put(tree, 0, set, out);
    out.push(b';');
}
