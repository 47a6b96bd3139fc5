// The entered triplets on the triples that a tree resolves, and their links on a set.
#![tactic(auto)]

ghost use Rattle.std.specs.Prelude.{◌≡◌, true, ◌&&◌, ◌↔◌, ◌<◌, ◌≤◌, eqb, length};
ghost use Rattle.std.proofs.Math.Bool.{So};
ghost use Rattle.sets.specs.Sets.{has, number};
ghost use Rattle.sets.specs.Species.{either};
ghost use Rattle.trees.specs.Check.{R, Joins};
ghost use Rattle.trees.specs.Links.{part};
ghost use Rattle.trees.specs.Trees.{Tree};
ghost use Rattle.trees.specs.Triplets.{Triplets, Proper, different, only, resolves};
ghost use Rattle.tables.specs.Bytes.{entered};
ghost use Rattle.groups.specs.Groups.{Meets, Candidate, cells, set_of};
ghost use Rattle.masks.specs.Masks.{Masks};
ghost use Rattle.masks.specs.Filling.{Masked, Noted, in_triple, in_row, in_level, touch};

// c into the mask of a and b, in this order.
fn add(a: usize, b: usize, c: usize, masks: &mut [u64; groups::CELLS])
    requires { (a < 64) × (b < 64) × (c < 64) × (length masks.old ≡ cells) }
    ensures { (length masks.new ≡ cells) × Masked (λ x y z. eqb z c && (eqb x a && eqb y b)) masks.old masks.new }
{
    let i = a * 64 + b;
    masks[i] = sets::with(masks[i], c);
}

// ab|c where it is on, in both orders of the close pair.
fn put(on: bool, a: usize, b: usize, c: usize, masks: &mut [u64; groups::CELLS])
    requires { (a < 64) × (b < 64) × (c < 64) × (length masks.old ≡ cells) }
    ensures { (length masks.new ≡ cells) × Masked (λ x y z. on && only a b c x y z) masks.old masks.new }
{
    if on {
        add(a, b, c, masks);
        add(b, a, c, masks);
    }
}

// Does the tree resolve the triple?
fn resolved(d: groups::Drawing, a: usize, b: usize, c: usize) -> bool
    requires { So (different a b c) × (a < 64) × (b < 64) × (c < 64) }
    ensures { (T : Tree) → Meets T d.entry.meets.now → d.entry.whole ≡ set_of T → result ≡ resolves T a b c }
{
    matches!(
        d.ask(a, b, c),
        groups::Says::AB | groups::Says::AC | groups::Says::BC
    )
}

// What is entered of the triple a < b < c, where the tree resolves it.
fn note(
    t: &[u8],
    d: groups::Drawing,
    a: usize,
    b: usize,
    c: usize,
    masks: &mut [u64; groups::CELLS],
)
    requires { (a < b) × (b < c) × (c < 64) × (length masks.old ≡ cells) }
    ensures { Noted t.now d.entry.whole d.entry.meets.now (λ E. in_triple E a b c) masks.old masks.new }
{
    if !resolved(d, a, b, c) {
        return;
    }
    let s = tables::bits_of(t, a, b, c);
    put(s.ab, a, b, c, masks);
    put(s.ac, a, c, b, masks);
    put(s.bc, b, c, a, masks);
}

// The triples with b and c, from the lowest a on.
fn row(t: &[u8], d: groups::Drawing, b: usize, c: usize, masks: &mut [u64; groups::CELLS])
    requires { (b < c) × (c < 64) × (length masks.old ≡ cells) }
    ensures { Noted t.now d.entry.whole d.entry.meets.now (λ E. in_row E b b c) masks.old masks.new }
{
    for a in 0..b {
        note(t, d, a, b, c, masks);
    }
}

// The triples whose highest species is c.
fn level(t: &[u8], d: groups::Drawing, c: usize, masks: &mut [u64; groups::CELLS])
    requires { (c < 64) × (length masks.old ≡ cells) }
    ensures { Noted t.now d.entry.whole d.entry.meets.now (λ E. in_level E c c) masks.old masks.new }
{
    for b in 0..c {
        row(t, d, b, c, masks);
    }
}

// R of a candidate: the entered triplets on the triples that it resolves, as masks. What `masks` held does not matter.
pub fn relate(t: &[u8], n: usize, d: groups::Drawing, masks: &mut [u64; groups::CELLS])
    requires { (n ≤ 64) × (length masks.old ≡ cells) }
    ensures masks_len { length masks.new ≡ cells }
    ensures masks { (T : Tree) → Candidate n T d.entry.whole d.entry.meets.now → Masks (R (entered t.now) T) masks.new }
{
    *masks = [0; groups::CELLS];
    for c in 0..n {
        level(t, d, c, masks);
    }
}

// The species of `fresh` whose mask with i has a species of s.
fn near(masks: &[u64; groups::CELLS], s: u64, fresh: u64, i: usize) -> u64
    requires { i < 64 }
    ensures { result ≡ number 64 (λ j. has fresh j && touch masks.now s i j) }
{
    let mut r = 0;
    for j in sets::species(fresh) {
        if sets::meet(masks[i * 64 + j], s) != 0 {
            r = sets::with(r, j);
        }
    }
    r
}

// The connected part of a in s, under the links of the masks on s. No `for`: what is to do grows while the loop goes on.
pub fn part(masks: &[u64; groups::CELLS], s: u64, a: usize) -> u64
    requires { a < 64 }
    ensures { (E : Triplets) → Proper E → Masks E masks.now → So (has s a) → has result ≡ part E 64 (has s) a }
{
    let mut reached = sets::single(a);
    let mut done = 0;
    let mut todo = reached;
    while todo != 0 {
        let i = sets::lowest(todo);
        let fresh = sets::minus(s, reached);
        reached = sets::union(reached, near(masks, s, fresh, i));
        done = sets::with(done, i);
        todo = sets::minus(reached, done);
    }
    reached
}

// Is the group g joined beside the group h: do the links on both together join all of g?
pub fn beside(masks: &[u64; groups::CELLS], g: u64, h: u64) -> bool
    requires { 0 < g }
    ensures { (E : Triplets) → Proper E → Masks E masks.now → (result ≡ true) ↔ Joins E (either (has g) (has h)) (has g) }
{
    let p = part(masks, sets::union(g, h), sets::lowest(g));
    sets::subset(g, p)
}
