// Splitting a set of species into its connected parts under the entered triplets' links. The rows of links are known here alone.
// Nearly all of a build's time goes here. With a `for` over `sets::species` in place of the loops over what is left of a set it took up to 1.4 times what
// the twin takes, where 1.3 is its limit; with them it takes 1.0 to 1.1 times (`bench/run`).
#![tactic(auto)]

ghost use Rattle.std.specs.Prelude.{◌≡◌, ◌<◌, length};
ghost use Rattle.std.proofs.lemmas.List.Edits.{sets};
ghost use Rattle.sets.specs.Sets.{has, size};
ghost use Rattle.sets.specs.Floods.{Flooded};
ghost use Rattle.sets.specs.Species.{Below};
ghost use Rattle.trees.specs.Combinations.{C};
ghost use Rattle.tables.specs.Bytes.{entered};
ghost use Rattle.splitting.specs.Rows.{flag, RowsShow, Pair, Ties, InRow, InLevel, Laid, Mirrored, Flagged};
ghost use Rattle.splitting.specs.Split.{parts_of};

// How many parts a set has, and how many triples were looked at to find them.
#[derive(Clone, Copy)]
pub struct Parted {
    pub count: usize,
    pub looked: usize,
}

// The rows of links, and how many triples were looked at. The rows are handed back by value: where they were lent, one split had so little data that the
// compiler put it into each level of the build, some 500 bytes a level more.
#[derive(Clone, Copy)]
struct Filled {
    rows: [u64; 64],
    looked: usize,
}

// Puts b into the row of a where it is on.
fn join(on: bool, a: usize, b: usize, g: &mut [u64; 64])
    requires { (a < 64) × (b < 64) × (length g.old ≡ 64) }
    ensures { Flagged (Pair on a b) g.old g.new }
{
    if on {
        g[a] = sets::with(g[a], b);
    }
}

// What is entered of the triple a < b < c, into the row of the lower species of each two that it links. Mostly that is nothing, or one triplet.
fn note(t: &[u8], a: usize, b: usize, c: usize, g: &mut [u64; 64])
    requires { (a < b) × (b < c) × (c < 64) × (length g.old ≡ 64) }
    ensures { Flagged (Ties (entered t.now) a b c) g.old g.new }
{
    let s = tables::bits_of(t, a, b, c);
    if s.ab | s.ac | s.bc {
        join(s.ab, a, b, g);
        if s.ac | s.bc {
            join(s.ac, a, c, g);
            join(s.bc, b, c, g);
        }
    }
}

// The triples with b and c, and the lowest from `low`. Returns how many were looked at, by one each: one for each species of `low`.
fn row(t: &[u8], low: u64, b: usize, c: usize, g: &mut [u64; 64]) -> usize
    requires { Below b (has low) × (b < c) × (c < 64) × (length g.old ≡ 64) }
    ensures flagged { Flagged (InRow (entered t.now) low b c) g.old g.new }
    ensures value { result ≡ C (size low) 1 }
{
    let mut left = low;
    let mut looked = 0;
    while left != 0 {
        note(t, sets::lowest(left), b, c, g);
        looked += 1;
        left = sets::rest(left);
    }
    looked
}

// The triples whose highest species is c, and the two others from `low`. Returns how many were looked at: one for each two species of `low`.
fn level(t: &[u8], low: u64, c: usize, g: &mut [u64; 64]) -> usize
    requires { Below c (has low) × (c < 64) × (length g.old ≡ 64) }
    ensures flagged { Flagged (InLevel (entered t.now) low c) g.old g.new }
    ensures value { result ≡ C (size low) 2 }
{
    let mut left = low;
    let mut looked = 0;
    while left != 0 {
        let b = sets::lowest(left);
        looked += row(t, sets::meet(low, sets::all(b)), b, c, g);
        left = sets::rest(left);
    }
    looked
}

// Puts a into the rows of all species of `row`.
fn give(row: u64, a: usize, g: &mut [u64; 64])
    requires { (a < 64) × (length g.old ≡ 64) }
    ensures { Flagged (Laid row a) g.old g.new }
{
    let mut left = row;
    while left != 0 {
        let i = sets::lowest(left);
        g[i] = sets::with(g[i], a);
        left = sets::rest(left);
    }
}

// Gives every link of a species of s to a higher one to the other row as well.
fn mirror(s: u64, g: &mut [u64; 64])
    requires { length g.old ≡ 64 }
    ensures { Flagged (Mirrored g.old s) g.old g.new }
{
    let mut left = s;
    while left != 0 {
        let a = sets::lowest(left);
        let row = sets::minus(g[a], sets::all(a));
        give(row, a, g);
        left = sets::rest(left);
    }
}

// The links on s: all triples with their three species in s, and then the other direction of each link. Each three species of s are looked at once.
fn links(t: &[u8], s: u64) -> Filled
    ensures rows_show { RowsShow result.rows (entered t.now) s }
    ensures looked_value { result.looked ≡ C (size s) 3 }
{
    let mut g = [0; 64];
    let mut left = s;
    let mut looked = 0;
    while left != 0 {
        let c = sets::lowest(left);
        looked += level(t, sets::meet(s, sets::all(c)), c, &mut g);
        left = sets::rest(left);
    }
    mirror(s, &mut g);
    Filled { rows: g, looked }
}

// What is reached from a over the links.
fn part(g: &[u64; 64], a: usize) -> u64
    requires { a < 64 }
    ensures { Flooded (flag g.now) a result }
{
    let mut reached = sets::single(a);
    let mut done = 0;
    let mut todo = reached;
    // What is to do grows on the way, so this is no walk over a set that is known before.
    while todo != 0 {
        let i = sets::lowest(todo);
        reached = sets::union(reached, g[i]);
        done = sets::with(done, i);
        todo = sets::minus(reached, done);
    }
    reached
}

// The connected parts of s, by lowest species, to the front of `parts`. Returns how many there are, and how many triples were looked at: each three species
// of s are looked at once.
pub fn split(t: &[u8], s: u64, parts: &mut [u64; 64]) -> Parted
    requires { length parts.old ≡ 64 }
    ensures count_value { result.count ≡ length (parts_of (entered t.now) s) }
    ensures parts_after { parts.new ≡ sets parts.old 0 (parts_of (entered t.now) s) }
    ensures looked_value { result.looked ≡ C (size s) 3 }
{
    let filled = links(t, s);
    let g = filled.rows;
    let mut rest = s;
    let mut k = 0;
    // Each turn takes a whole part away, and not the lowest species alone.
    while rest != 0 {
        let p = part(&g, sets::lowest(rest));
        parts[k] = p;
        k += 1;
        rest = sets::minus(rest, p);
    }
    Parted {
        count: k,
        looked: filled.looked,
    }
}
