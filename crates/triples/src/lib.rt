// Triples of species in increasing order, and their indices.
#![tactic(auto)]

ghost use Rattle.std.specs.Prelude.{◌≡◌, ◌<◌, ◌≤◌, ℕ};
ghost use Rattle.triples.specs.Index.{C, index, low, mid, high, largest};
ghost use Rattle.triples.specs.Named.{named};
ghost use Rattle.triples.specs.Tries.{Passes, Tries};

// Three species in increasing order.
#[derive(Clone, Copy)]
pub struct Triple {
    pub low: usize,
    pub mid: usize,
    pub high: usize,
}

// C(n,3): how many triples n species have.
pub fn count(n: usize) -> usize
    requires { n ≤ 64 }
    ensures { result ≡ C n 3 }
{
    if n < 3 {
        return 0;
    }
    n * (n - 1) * (n - 2) / 6
}

// C(n,2).
fn pairs(n: usize) -> usize
    requires { n ≤ 64 }
    ensures { result ≡ C n 2 }
{
    if n < 1 {
        return 0;
    }
    n * (n - 1) / 2
}

// The index of the triple a < b < c.
pub fn index(a: usize, b: usize, c: usize) -> usize
    requires { (a < b) × (b < c) × (c < 64) }
    ensures { result ≡ index a b c }
{
    c * (c - 1) * (c - 2) / 6 + b * (b - 1) / 2 + a
}

// C(n,k), for k = 2 and 3.
fn combinations(n: usize, k: usize) -> usize
    requires { (n ≤ 64) × (2 ≤ k) × (k ≤ 3) }
    ensures { result ≡ C n k }
{
    if k == 3 {
        return count(n);
    }
    pairs(n)
}

// The largest number with at most i sets of k: the highest species of the triple with index i for k = 3, and for k = 2 the middle one, where i is
// the index less what the highest one adds to it.
fn largest(k: usize, i: usize) -> usize
    requires { (2 ≤ k) × (k ≤ 3) }
    ensures { result ≡ largest k 64 i }
{
    for m in (1..65).rev() {
        if combinations(m, k) <= i {
            return m;
        }
    }
    0
}

// The triple with index i; beyond the 41,664 triples of 64 species there is none.
pub fn triple_at(i: usize) -> Option<Triple>
    ensures { result ≡ named i }
{
    if i >= count(64) {
        return None;
    }
    let high = largest(3, i);
    let rest = i - count(high);
    let mid = largest(2, rest);
    Some(Triple {
        low: rest - pairs(mid),
        mid: mid,
        high: high,
    })
}

// Three species in order.
pub fn sorted(a: usize, b: usize, c: usize) -> Triple
    requires { (a < 64) × (b < 64) × (c < 64) }
    ensures { (result.low ≡ low a b c) × (result.mid ≡ mid a b c) × (result.high ≡ high a b c) }
{
    let l = a.min(b.min(c));
    let h = a.max(b.max(c));
    Triple {
        low: l,
        mid: a + b + c - (l + h),
        high: h,
    }
}

// The first triple of n species, in index order, for which a test holds. The test is asked of one triple after another up to that one, and may remember
// what it found.
pub fn first<F: FnMut(usize, usize, usize) -> bool>(n: usize, mut holds: F) -> Option<Triple>
    requires { (f : F) (a b c : ℕ) → a < b → b < c → c < n → Passes n F.step (index a b c) holds f → F.pre f a b c }
    ensures { Tries n F.step holds result }
{
    'search: {
        for c in 0..n {
            for b in 0..c {
                for a in 0..b {
                    if holds(a, b, c) {
                        break 'search Some(Triple {
                            low: a,
                            mid: b,
                            high: c,
                        });
                    }
                }
            }
        }
        None
    }
}
