// The table of entered triplets: its bytes.
#![tactic(auto)]

ghost use Rattle.std.specs.Prelude.{◌≡◌, ◌<◌, ◌≤◌, get_or, length, replicate, set};
ghost use Rattle.std.proofs.Math.Bool.{So};
ghost use Rattle.sets.specs.Sets.{single};
ghost use Rattle.trees.specs.Triplets.{different};
ghost use Rattle.triples.specs.Index.{index};
ghost use Rattle.tables.specs.Bytes.{fits, first_over, place_of, bit_of, entered, added, Byte, Entered};

// What stands for ab|c, ac|b, bc|a and a fan in the byte of the triple a < b < c.
pub const AB: u8 = 1;

pub const AC: u8 = 2;

pub const BC: u8 = 4;

pub const FAN: u8 = 8;

// The highest byte that a table may hold.
const TOP: u8 = 15;

// What is entered of a triple a < b < c: ab|c, ac|b, bc|a.
#[derive(Clone, Copy)]
pub struct Bits {
    pub ab: bool,
    pub ac: bool,
    pub bc: bool,
}

// Where a triplet stands in the table: the place of its byte, and its bit there, which is 1, 2 or 4.
#[derive(Clone, Copy)]
struct Mark {
    place: usize,
    bit: u8,
}

// Is the length C(n,3)?
pub fn fits(t: &[u8], n: usize) -> bool
    requires { n ≤ 64 }
    ensures { result ≡ fits t.now n }
{
    t.len() == triples::count(n)
}

// What the table holds at place i.
fn held(t: &[u8], i: usize) -> u8
    requires { i < length t.now }
    ensures { result ≡ get_or t.now i 0 }
{
    t[i]
}

// Lets the table hold v at place i.
fn hold(t: &mut [u8], i: usize, v: u8)
    requires { i < length t.old }
    ensures { t.new ≡ set t.old i v }
{
    t[i] = v;
}

// The first place with a byte over TOP, if there is one.
pub fn over(t: &[u8]) -> Option<usize>
    ensures { result ≡ first_over t.now }
{
    for i in 0..t.len() {
        if held(t, i) > TOP {
            return Some(i);
        }
    }
    None
}

// The byte of the triple a < b < c; 0 where the table does not have it.
pub fn byte(t: &[u8], a: usize, b: usize, c: usize) -> u8
    requires { (a < b) × (b < c) × (c < 64) }
    ensures { Byte t.now a b c result }
{
    let i = triples::index(a, b, c);
    if i < t.len() { held(t, i) } else { 0 }
}

// What is entered of the triple a < b < c.
pub fn bits_of(t: &[u8], a: usize, b: usize, c: usize) -> Bits
    requires { (a < b) × (b < c) × (c < 64) }
    ensures { (result.ab ≡ entered t.now a b c) × (result.ac ≡ entered t.now a c b) × (result.bc ≡ entered t.now b c a) }
{
    let v = byte(t, a, b, c);
    Bits {
        ab: v % 2 == 1,
        ac: v / 2 % 2 == 1,
        bc: v / 4 % 2 == 1,
    }
}

// Where ab|c stands: the place of its byte, and its bit in it.
fn spot(a: usize, b: usize, c: usize) -> Mark
    requires { So (different a b c) × (a < 64) × (b < 64) × (c < 64) }
    ensures { (result.place ≡ place_of a b c) × (result.bit ≡ single (bit_of a b c)) }
{
    let t = triples::sorted(a, b, c);
    let i = triples::index(t.low, t.mid, t.high);
    if a.max(b) < c {
        return Mark { place: i, bit: AB };
    }
    if a.min(b) < c {
        return Mark { place: i, bit: AC };
    }
    Mark { place: i, bit: BC }
}

// Enters ab|c. The three species stand in any order.
pub fn put(t: &mut [u8], a: usize, b: usize, c: usize)
    requires { So (different a b c) × (a < 64) × (b < 64) × (c < 64) × (place_of a b c < length t.old) }
    ensures { Entered t.old t.new a b c }
{
    let s = spot(a, b, c);
    let i = s.place;
    hold(t, i, held(t, i) | s.bit);
}

// Adds bits to the byte of the triple a < b < c, which needs no sorting.
pub fn add(t: &mut [u8], a: usize, b: usize, c: usize, bits: u8)
    requires { (a < b) × (b < c) × (c < 64) × (index a b c < length t.old) }
    ensures { t.new ≡ added t.old (index a b c) bits }
{
    let i = triples::index(a, b, c);
    hold(t, i, held(t, i) | bits);
}

// Takes everything out: a table of zeros.
pub fn clear(t: &mut [u8])
    ensures { t.new ≡ replicate (length t.old) 0 }
{
    for i in 0..t.len() {
        hold(t, i, 0);
    }
}
