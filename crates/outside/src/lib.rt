// The first triple with a byte that is not 0 and a species outside a set.
#![tactic(auto)]

ghost use Rattle.std.specs.Prelude.{◌≡◌, ◌<◌, ◌≤◌};
ghost use Rattle.triples.specs.Finds.{Finds};
ghost use Rattle.outside.specs.Reaches.{reaches};

// Is the byte of the triple a < b < c not 0, and one of the three outside s? The set is asked first: mostly it has all three.
fn reaches(t: &[u8], s: u64, a: usize, b: usize, c: usize) -> bool
    requires { (a < b) × (b < c) × (c < 64) }
    ensures { result ≡ reaches t.now s a b c }
{
    if sets::has(s, a) & sets::has(s, b) & sets::has(s, c) {
        return false;
    }
    tables::byte(t, a, b, c) != 0
}

// The first triple of n species, in index order, that reaches outside s with a byte that is not 0.
pub fn first_outside(n: usize, t: &[u8], s: u64) -> Option<triples::Triple>
    requires { n ≤ 64 }
    ensures { Finds n (reaches t.now s) result }
{
    triples::first(n, |a, b, c| reaches(t, s, a, b, c))
}
