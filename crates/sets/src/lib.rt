// Sets of species: bit i of a 64-bit number for species i.
#![tactic(auto)]

ghost use Rattle.std.specs.Prelude.{◌≡◌, ◌<◌, ◌≤◌, true, ◌↔◌};
ghost use Rattle.std.specs.Iterator.{at_most};
ghost use Rattle.sets.specs.Sets.{has, Subset, union, meet, minus, single, upto, size, Lowest, Rest};
ghost use Rattle.sets.specs.Walks.{Walks};

// Is species i in s?
pub fn has(s: u64, i: usize) -> bool
    requires { i < 64 }
    ensures { result ≡ has s i }
{
    (s >> i) & 1 == 1
}

// The number of species in s.
pub fn size(s: u64) -> u32
    ensures { result ≡ size s }
{
    s.count_ones()
}

// The lowest species of s; 64 where s is empty.
pub fn lowest(s: u64) -> usize
    ensures { Lowest s result }
{
    s.trailing_zeros() as usize
}

// s without its lowest species.
pub fn rest(s: u64) -> u64
    ensures { Rest s result }
{
    s & s.wrapping_sub(1)
}

// A walk over a set, from the lowest species up: what it has left.
#[derive(Clone, Copy)]
pub struct Walk {
    pub left: u64,
}

impl Iterator for Walk {
    type Item = usize;

    ghost next_gives = { λ w r v. Walks w.left r v.left };

    ghost remaining = { λ w. at_most (size w.left) };

    fn next(&mut self) -> Option<usize> {
        if self.left == 0 {
            return None;
        }
        let i = lowest(self.left);
        self.left = rest(self.left);
        Some(i)
    }
}

// The species of s, from the lowest up.
pub fn species(s: u64) -> Walk
    ensures { result.left ≡ s }
{
    Walk { left: s }
}

pub fn union(s: u64, t: u64) -> u64
    ensures { result ≡ union s t }
{
    s | t
}

pub fn meet(s: u64, t: u64) -> u64
    ensures { result ≡ meet s t }
{
    s & t
}

pub fn minus(s: u64, t: u64) -> u64
    ensures { result ≡ minus s t }
{
    s & !t
}

// Species i alone.
pub fn single(i: usize) -> u64
    requires { i < 64 }
    ensures { result ≡ single i }
{
    1u64 << i
}

pub fn with(s: u64, i: usize) -> u64
    requires { i < 64 }
    ensures { result ≡ union s (single i) }
{
    s | single(i)
}

// Is every species of s in t?
pub fn subset(s: u64, t: u64) -> bool
    ensures { (result ≡ true) ↔ Subset s t }
{
    s & t == s
}

// All species below n.
pub fn all(n: usize) -> u64
    requires { n ≤ 64 }
    ensures { result ≡ upto n }
{
    if n == 64 { u64::MAX } else { single(n) - 1 }
}
