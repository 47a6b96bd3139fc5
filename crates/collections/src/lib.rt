// Reading a collection: its header, the lengths, and each tree's body.
#![tactic(auto)]

ghost use Rattle.std.specs.Prelude.{◌≡◌, ℕ, suc, ◌+◌, ◌<◌, ◌≤◌, ◌||◌, false, eqb, ltb, length};
ghost use Rattle.bodies.specs.Draws.{tree_of};
ghost use Rattle.bodies.specs.Nodes.{Good, bad_length, nodes};
ghost use Rattle.groups.specs.Groups.{set_of};
ghost use Rattle.collections.specs.Layout.{body_at, length_at, start, species, trees};
ghost use Rattle.collections.specs.Reads.{next_of, answer_from, read_answer};

use refusals::Refusal;

// The longest collection: its header, and 16 trees, each with two bytes of length and the longest body.
pub const LONGEST: usize = 3 + 16 * (2 + bodies::LONGEST);

// What a good collection has; of the species, the set that occurs.
#[derive(Clone, Copy)]
pub struct Counts {
    pub n: usize,
    pub trees: usize,
    pub set: u64,
}

// Where a tree's body stands: from start up to, and not with, end.
#[derive(Clone, Copy)]
pub struct Span {
    pub start: usize,
    pub end: usize,
}

// The number in the two bytes from p on, big-endian.
fn length_at(b: &[u8], p: usize) -> usize
    requires { p + 2 ≤ length b.now }
    ensures { (result ≡ length_at b.now p) × (result < 65536) }
{
    usize::from(u16::from_be_bytes([b[p], b[p + 1]]))
}

// The place of the body of tree k, where the trees up to it lie inside the bytes.
pub fn body_span(b: &[u8], k: usize) -> Span
    requires { (j : ℕ) → j ≤ k → start b.now (suc j) ≤ length b.now }
    ensures { (result.start ≡ start b.now k + 2) × (result.end ≡ start b.now (suc k)) }
{
    let mut at = 3;
    for _ in 0..k {
        at += 2 + length_at(b, at);
    }
    Span {
        start: at + 2,
        end: at + 2 + length_at(b, at),
    }
}

// The body of tree k, where the trees up to it lie inside the bytes.
#[tactic(auto, unfolding(crate::specs::Layout::start))]
pub fn body(b: &[u8], k: usize) -> &[u8]
    requires { (j : ℕ) → j ≤ k → start b.now (suc j) ≤ length b.now }
    ensures { result.now ≡ body_at b.now k }
{
    let Span { start, end } = body_span(b, k);
    &b[start..end]
}

// Where the tree behind tree k starts, which itself starts at `at`.
fn one_tree(b: &[u8], n: usize, k: usize, at: usize) -> Result<usize, Refusal>
    requires { (at ≡ start b.now k) × (at ≤ length b.now) × (n ≡ species b.now) }
    ensures { result ≡ next_of b.now k }
{
    let left = b.len() - at;
    if left < 2 {
        return Err(Refusal::EndsEarly(k));
    }
    let l = length_at(b, at);
    if bodies::bad_length(l) {
        return Err(Refusal::BadLength(k));
    }
    if left - 2 < l {
        return Err(Refusal::EndsEarly(k));
    }
    let from = at + 2;
    let to = from + l;
    rules::first_fault(k, n, &b[from..to])?;
    Ok(to)
}

// The species under the root of a good body.
fn tree_set(body: &[u8]) -> u64
    requires { Good 64 (nodes body.now) × (bad_length (length body.now) ≡ false) }
    ensures { result ≡ set_of (tree_of body.now) }
{
    let mut g = [0; bodies::MOST_NODES];
    groups::groups(body, &mut g);
    g[0]
}

// The trees, one after the other, with their species, and then what is left over.
fn all_trees(b: &[u8], n: usize, m: usize) -> Result<Counts, Refusal>
    requires { (3 ≤ length b.now) × (n ≡ species b.now) × (m ≡ trees b.now) × (n ≤ 64) }
    ensures { result ≡ answer_from b.now 0 (trees b.now) }
{
    let mut at = 3;
    let mut set = 0;
    for k in 0..m {
        let to = one_tree(b, n, k, at)?;
        let from = at + 2;
        set = sets::union(set, tree_set(&b[from..to]));
        at = to;
    }
    if at < b.len() {
        return Err(Refusal::LeftOver(b.len() - at));
    }
    Ok(Counts { n, trees: m, set })
}

// Is n 0 or over 64, or are there over 16 trees?
fn wrong_counts(n: usize, m: usize) -> bool
    ensures { result ≡ (eqb n 0 || (ltb 64 n || ltb 16 m)) }
{
    n == 0 || n > 64 || m > 16
}

// Reads a collection.
pub fn read(b: &[u8]) -> Result<Counts, Refusal>
    ensures { result ≡ read_answer b.now }
{
    if b.len() == 0 {
        return Err(Refusal::EndsEarly(0));
    }
    if b[0] != 1 {
        return Err(Refusal::BadVersion);
    }
    if b.len() < 3 {
        return Err(Refusal::EndsEarly(0));
    }
    let n = usize::from(b[1]);
    let m = usize::from(b[2]);
    if wrong_counts(n, m) {
        return Err(Refusal::BadCounts);
    }
    all_trees(b, n, m)
}
