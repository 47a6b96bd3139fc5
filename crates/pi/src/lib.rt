// PI where some group is not earned: the first triple whose triplet in the tree is not forced, by cores.
#![tactic(auto)]

ghost use Rattle.std.specs.Prelude.{◌≡◌, ◌<◌, ◌≤◌, ℕ, length};
ghost use Rattle.std.proofs.Math.Bool.{So};
ghost use Rattle.sets.specs.Sets.{has, Subset};
ghost use Rattle.trees.specs.Check.{R, unsure, pair};
ghost use Rattle.trees.specs.Trees.{Tree};
ghost use Rattle.trees.specs.Triplets.{Triplets, Proper, on_triple};
ghost use Rattle.groups.specs.Groups.{cells};
ghost use Rattle.masks.specs.Masks.{Masks};
ghost use Rattle.pi.specs.Cores.{IsCore, Memo, Recalls, Decides, Uncontradicted};
ghost use Rattle.triples.specs.Finds.{Finds};

// The parts of a and of c in s, together. Never more than s, whatever the masks are, so that the chain ends.
fn pair(masks: &[u64; groups::CELLS], s: u64, a: usize, c: usize) -> u64
    requires { (a < 64) × (c < 64) }
    ensures { Subset result s × ((E : Triplets) → Proper E → Masks E masks.now → So (has s a) → So (has s c) → has result ≡ pair E 64 (has s) a c) }
{
    sets::meet(
        s,
        sets::union(masks::part(masks, s, a), masks::part(masks, s, c)),
    )
}

// The core of a and c in s: the same again and again, each time on what was left, until all is left.
fn core(masks: &[u64; groups::CELLS], s: u64, a: usize, c: usize) -> u64
    requires { (a < 64) × (c < 64) }
    ensures { (E : Triplets) → Proper E → Masks E masks.now → IsCore E s a c result }
{
    let mut x = s;
    let mut y = pair(masks, s, a, c);
    while y != x {
        x = y;
        y = pair(masks, x, a, c);
    }
    x
}

// The core of a and c in their smallest common group, looked for once: a core has both, so 0 is none yet.
fn core_of(
    masks: &[u64; groups::CELLS],
    meets: &[u64; groups::CELLS],
    cores: &mut [u64; groups::CELLS],
    a: usize,
    c: usize,
) -> u64
    requires { (a < 64) × (c < 64) × (length cores.old ≡ cells) }
    ensures cores_len { length cores.new ≡ cells }
    ensures recalls { Recalls masks.now meets.now cores.old cores.new a c result }
{
    let at = a * 64 + c;
    let known = cores[at];
    if known != 0 {
        return known;
    }
    let found = core(masks, meets[at], a, c);
    cores[at] = found;
    found
}

// Is the triplet of the tree on a < b < c forced? One look at a core tells. A fan has no triplet, nor have species that are not all here.
fn sure_at(
    d: groups::Drawing,
    masks: &[u64; groups::CELLS],
    cores: &mut [u64; groups::CELLS],
    a: usize,
    b: usize,
    c: usize,
) -> bool
    requires { (a < b) × (b < c) × (c < 64) × (length cores.old ≡ cells) }
    ensures cores_len { length cores.new ≡ cells }
    ensures decides { Decides d.entry.whole d.entry.meets.now masks.now cores.old cores.new a b c result }
{
    match d.ask(a, b, c) {
        groups::Says::AB => sets::has(core_of(masks, d.meets, cores, a, c), b),
        groups::Says::AC => sets::has(core_of(masks, d.meets, cores, a, b), c),
        groups::Says::BC => sets::has(core_of(masks, d.meets, cores, a, b), c),
        groups::Says::Fan => true,
        groups::Says::Absent => true,
    }
}

// The first triple in index order whose triplet in the tree is not forced, for a tree that nothing contradicts.
pub fn first_unforced(
    n: usize,
    d: groups::Drawing,
    masks: &[u64; groups::CELLS],
) -> Option<triples::Triple>
    requires { n ≤ 64 }
    ensures { (E : Triplets) (T : Tree) → Uncontradicted E n T d.entry.whole d.entry.meets.now masks.now → Finds n (unsure E n T) result }
{
    let mut cores = [0; groups::CELLS];
    let unforced = |a, b, c|
        requires { (a < b) × (b < c) × (c < 64) × (length cores ≡ cells) }
        ensures cores_len { length cores.exit ≡ cells }
        ensures decides { (E : Triplets) (N : ℕ) (T : Tree) → Uncontradicted E N T d.entry.whole d.entry.meets.now masks.entry.now → Memo (R E T) d.entry.meets.now cores.entry → Memo (R E T) d.entry.meets.now cores.exit × (result ≡ on_triple (unsure E N T) a b c) }
    { !sure_at(d, masks, &mut cores, a, b, c) };
    triples::first(n, unforced)
}
