// PC: the first triple on which an entered triplet differs from what a tree says.
#![tactic(auto)]

ghost use Rattle.std.specs.Prelude.{◌≡◌, ◌<◌, ◌≤◌, ℕ};
ghost use Rattle.trees.specs.Check.{differs};
ghost use Rattle.trees.specs.Trees.{Tree};
ghost use Rattle.trees.specs.Triplets.{on_triple};
ghost use Rattle.tables.specs.Bytes.{entered};
ghost use Rattle.groups.specs.Groups.{Candidate};
ghost use Rattle.triples.specs.Finds.{Finds};
ghost use Rattle.pc.specs.Contrary.{contrary};

// Does an entered triplet of a, b and c differ from the one that the tree says? Where it says no triplet none does.
fn against(s: groups::Says, e: tables::Bits) -> bool
    ensures { result ≡ contrary s e.ab e.ac e.bc }
{
    match s {
        groups::Says::AB => e.ac | e.bc,
        groups::Says::AC => e.ab | e.bc,
        groups::Says::BC => e.ab | e.ac,
        groups::Says::Fan => false,
        groups::Says::Absent => false,
    }
}

// The first triple in index order on which an entered triplet differs from what the tree says.
pub fn first_contradiction(n: usize, t: &[u8], d: groups::Drawing) -> Option<triples::Triple>
    requires { n ≤ 64 }
    ensures { (T : Tree) → Candidate n T d.entry.whole d.entry.meets.now → Finds n (differs (entered t.now) T) result }
{
    let differs = |a, b, c|
        requires { (a < b) × (b < c) × (c < 64) }
        ensures { (N : ℕ) (T : Tree) → Candidate N T d.entry.whole d.entry.meets.now → result ≡ on_triple (differs (entered t.entry.now) T) a b c }
    { against(d.ask(a, b, c), tables::bits_of(t, a, b, c)) };
    triples::first(n, differs)
}
