// Listing a collection: what its trees say of every triple goes into the table.
#![tactic(auto)]

ghost use Rattle.std.specs.Prelude.{◌≡◌, false, suc, ◌+◌, ◌<◌, ◌≤◌, length};
ghost use Rattle.tables.specs.Adds.{Adds};
ghost use Rattle.tables.specs.Filled.{tree_byte};
ghost use Rattle.triples.specs.Index.{C};
ghost use Rattle.bodies.specs.Nodes.{Good, nodes, most_nodes, bad_length};
ghost use Rattle.bodies.specs.Draws.{tree_of};
ghost use Rattle.groups.specs.Groups.{cells};
ghost use Rattle.collections.specs.Collection.{Collection};
ghost use Rattle.collections.specs.Layout.{species, trees};
ghost use Rattle.listing.specs.Lists.{list_of, Lists};
ghost use Rattle.listing.specs.Stretch.{Stretch, says_byte};

use collections::Counts;
use refusals::Refusal;

// What a tree says of a triple, as bits of that triple's byte.
fn bits(s: groups::Says) -> u8
    ensures { result ≡ says_byte s }
{
    match s {
        groups::Says::AB => tables::AB,
        groups::Says::AC => tables::AC,
        groups::Says::BC => tables::BC,
        groups::Says::Fan => tables::FAN,
        groups::Says::Absent => 0,
    }
}

// The triples with b and c, from the lowest a on.
fn row(d: groups::Drawing, b: usize, c: usize, t: &mut [u8])
    requires { (b < c) × (c < 64) × (C (suc c) 3 ≤ length t.old) }
    ensures { Stretch d.entry.whole d.entry.meets.now (C c 3 + C b 2) (C c 3 + C (suc b) 2) t.old t.new }
{
    for a in 0..b {
        tables::add(t, a, b, c, bits(d.ask(a, b, c)));
    }
}

// The triples whose highest species is c.
fn level(d: groups::Drawing, c: usize, t: &mut [u8])
    requires { (c < 64) × (C (suc c) 3 ≤ length t.old) }
    ensures { Stretch d.entry.whole d.entry.meets.now (C c 3) (C (suc c) 3) t.old t.new }
{
    for b in 0..c {
        row(d, b, c, t);
    }
}

// Enters all that the tree of a good body says. What the two arrays held does not matter.
fn tree(
    n: usize,
    body: &[u8],
    groups: &mut [u64; bodies::MOST_NODES],
    meets: &mut [u64; groups::CELLS],
    t: &mut [u8],
)
    requires n_bound { (n ≤ 64) × Good n (nodes body.now) × (bad_length (length body.now) ≡ false) }
    requires groups_len { (length groups.old ≡ most_nodes) × (length meets.old ≡ cells) × (length t.old ≡ C n 3) }
    ensures groups_len_2 { (length groups.new ≡ most_nodes) × (length meets.new ≡ cells) }
    ensures t_len { (length t.new ≡ C n 3) × Adds (tree_byte (tree_of body.now)) 0 (C n 3) t.old t.new }
{
    let whole = groups::draw(body, groups, meets);
    let d = groups::Drawing { whole, meets };
    for c in 0..n {
        level(d, c, t);
    }
}

// Fills the table of a collection.
fn fill(b: &[u8], n: usize, m: usize, t: &mut [u8])
    requires { Collection b.now × (n ≡ species b.now) × (m ≡ trees b.now) × (length t.old ≡ C n 3) }
    ensures { t.new ≡ list_of b.now }
{
    tables::clear(t);
    let mut groups = [0; bodies::MOST_NODES];
    let mut meets = [0; groups::CELLS];
    for k in 0..m {
        tree(n, collections::body(b, k), &mut groups, &mut meets, t);
    }
}

// Lists a collection into a table: whatever the table held is gone. A refusal leaves every byte as it was. "Reading returns what listing returns", and
// so they share an answer.
pub fn list(b: &[u8], t: &mut [u8]) -> Result<Counts, Refusal>
    ensures { Lists b.now t.old result t.new }
{
    let c = collections::read(b)?;
    if !tables::fits(t, c.n) {
        return Err(Refusal::BadTable);
    }
    fill(b, c.n, c.trees, t);
    Ok(c)
}
