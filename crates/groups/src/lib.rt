// The groups of a good body, the smallest common group of each two species, and what its tree says of three species.
#![tactic(auto)]

ghost use Rattle.std.specs.Prelude.{◌≡◌, cond, not, ◌&&◌, ◌<◌, ◌≤◌, eqb, ltb, length};
ghost use Rattle.std.proofs.Math.Bool.{So};
ghost use Rattle.sets.specs.Sets.{has, single};
ghost use Rattle.trees.specs.Trees.{Tree};
ghost use Rattle.trees.specs.Triplets.{different};
ghost use Rattle.bodies.specs.Nodes.{nodes, most_nodes, Good};
ghost use Rattle.bodies.specs.Draws.{tree_of};
ghost use Rattle.groups.specs.Groups.{set_of, Groups, cells, cell, Stamped, Meets, Drawn, says};

// What a tree says of three species a, b and c: ab|c, ac|b or bc|a; that they are a fan; or that not all of them are here.
#[derive(Clone, Copy)]
pub enum Says {
    AB,
    AC,
    BC,
    Fan,
    Absent,
}

// The smallest common group of each two species: rows of 64, one for each species.
pub const CELLS: usize = 64 * 64;

// A good body with the group of each of its nodes.
#[derive(Clone, Copy)]
pub struct Grouped<'a> {
    pub body: &'a [u8],
    pub groups: &'a [u64; bodies::MOST_NODES],
    pub ghost good: { Good 64 (nodes body.now) },
    pub ghost bound: { (nodes body.now).count ≤ most_nodes },
    pub ghost groups_are: { Groups (nodes body.now) groups.now },
}

// A tree as it is asked: the set of its species, and the smallest common group of each two of them.
#[derive(Clone, Copy)]
pub struct Drawing<'a> {
    pub whole: u64,
    pub meets: &'a [u64; CELLS],
}

// The group of a node: a leaf's species, or what an inner node's children gave.
fn own(s: usize, given: u64) -> u64
    ensures { result ≡ cond (ltb s 64) (single s) given }
{
    if s < 64 {
        return sets::single(s);
    }
    given
}

// The group of every node of a good body: each node, from the last on, gives its group to its parent.
pub fn groups(body: &[u8], out: &mut [u64; bodies::MOST_NODES])
    requires good { Good 64 (nodes body.now) }
    requires body_bound { (nodes body.now).count ≤ most_nodes }
    requires out_len { length out.old ≡ most_nodes }
    ensures { Groups (nodes body.now) out.new }
{
    *out = [0; bodies::MOST_NODES];
    for i in (0..bodies::node_count(body)).rev() {
        let group = own(usize::from(bodies::species(body, i)), out[i]);
        out[i] = group;
        if i > 0 {
            let above = usize::from(bodies::parent(body, i));
            out[above] = sets::union(group, out[above]);
        }
    }
}

// The entries of a with every species of g.
fn stamp_row(g: u64, a: usize, out: &mut [u64; CELLS])
    requires { (a < 64) × (length out.old ≡ cells) }
    ensures { Stamped (λ x y. eqb x a && has g y) g out.old out.new }
{
    for b in sets::species(g) {
        out[a * 64 + b] = g;
    }
}

// The entries of every two species of g.
fn stamp(g: u64, out: &mut [u64; CELLS])
    requires { length out.old ≡ cells }
    ensures { Stamped (λ x y. has g x && has g y) g out.old out.new }
{
    for a in sets::species(g) {
        stamp_row(g, a, out);
    }
}

// The smallest common group of each two species: a parent stands before its children, so it is the last group that has both.
fn pairs(tree: Grouped, out: &mut [u64; CELLS])
    requires count_nonzero { 0 < (nodes tree.body.now).count }
    requires out_len { length out.old ≡ cells }
    ensures { Meets (tree_of tree.entry.body.now) out.new }
{
    *out = [0; CELLS];
    let groups = tree.groups;
    for group in &groups[..bodies::node_count(tree.body)] {
        stamp(*group, out);
    }
}

// Draws the tree of a good body: the group of every node, the smallest common group of each two species, and the set of all its species.
pub fn draw(body: &[u8], each: &mut [u64; bodies::MOST_NODES], meets: &mut [u64; CELLS]) -> u64
    requires good { Good 64 (nodes body.now) }
    requires count_nonzero { (0 < (nodes body.now).count) × ((nodes body.now).count ≤ most_nodes) }
    requires each_len { (length each.old ≡ most_nodes) × (length meets.old ≡ cells) }
    ensures groups { Groups (nodes body.now) each.new }
    ensures drawn { Drawn (tree_of body.now) result meets.new }
{
    groups(body, each);
    pairs(Grouped { body, groups: each }, meets);
    each[0]
}

// Are all three species in s?
fn all_in(s: u64, a: usize, b: usize, c: usize) -> bool
    requires { (a < 64) × (b < 64) × (c < 64) }
    ensures { result ≡ (has s a && (has s b && has s c)) }
{
    sets::has(s, a) && sets::has(s, b) && sets::has(s, c)
}

impl<'a> Drawing<'a> {
    // Does the smallest common group of a and b lack c?
    fn closer(self, a: usize, b: usize, c: usize) -> bool
        requires { (a < 64) × (b < 64) × (c < 64) }
        ensures { result ≡ not (has (cell self.entry.meets.now a b) c) }
    {
        !sets::has(self.meets[a * 64 + b], c)
    }

    // What the tree says of three different species.
    pub fn ask(self, a: usize, b: usize, c: usize) -> Says
        requires { So (different a b c) × (a < 64) × (b < 64) × (c < 64) }
        ensures { (t : Tree) → Meets t self.entry.meets.now → self.entry.whole ≡ set_of t → result ≡ says t a b c }
    {
        if !all_in(self.whole, a, b, c) {
            return Says::Absent;
        }
        if self.closer(a, b, c) {
            return Says::AB;
        }
        if self.closer(a, c, b) {
            return Says::AC;
        }
        if self.closer(b, c, a) {
            return Says::BC;
        }
        Says::Fan
    }
}
