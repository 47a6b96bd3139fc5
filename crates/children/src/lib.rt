// The children of a node by their species, and one after the other in house order.
#![tactic(auto)]

ghost use Rattle.std.specs.Prelude.{◌≡◌, cond, ◌<◌, ◌≤◌, eqb, get_or};
ghost use Rattle.std.specs.Iterator.{at_most};
ghost use Rattle.bodies.specs.Nodes.{nodes, most_nodes, none};
ghost use Rattle.children.specs.Children.{FindsChild};

// The child of node i whose group has species x, if there is one.
pub fn child_with(
    body: &[u8],
    groups: &[u64; bodies::MOST_NODES],
    i: usize,
    x: usize,
) -> Option<usize>
    requires { ((nodes body.now).count ≤ most_nodes) × (x < 64) }
    ensures { FindsChild (nodes body.now) groups.now i x result }
{
    (1..bodies::node_count(body)).find(|j| bodies::parent(body, *j) as usize == i
        && sets::has(groups[*j], x))
}

// A walk over the children of a node: `rest` has the species of those that are left.
#[derive(Clone, Copy)]
pub struct Children<'a> {
    pub tree: groups::Grouped<'a>,
    pub node: usize,
    pub rest: u64,
}

impl<'a> Iterator for Children<'a> {
    ghost use Rattle.children.specs.Walks.{Steps};

    type Item = usize;

    ghost next_gives = { Steps };

    ghost remaining = { λ s. at_most s.rest };

    // The child that has the lowest species left, whose species go.
    fn next(&mut self) -> Option<usize> {
        if self.rest == 0 {
            return None;
        }
        let x = sets::lowest(self.rest);
        let c = child_with(self.tree.body, self.tree.groups, self.node, x)?;
        self.rest = sets::minus(self.rest, self.tree.groups[c]);
        Some(c)
    }
}

// The children of node i in house order.
pub fn in_order<'a>(tree: groups::Grouped<'a>, i: usize) -> Children<'a>
    requires { i < (nodes tree.body.now).count }
    ensures tree { result.tree ≡ tree.entry }
    ensures node { result.node ≡ i }
    ensures rest { result.rest ≡ cond (eqb ((nodes tree.entry.body.now).species i) none) (get_or tree.entry.groups.now i 0) 0 }
{
    let rest = if bodies::species(tree.body, i) == bodies::NONE {
        tree.groups[i]
    } else {
        0
    };
    Children {
        tree,
        node: i,
        rest,
    }
}
