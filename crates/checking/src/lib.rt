// Checking a tree against a table: it passes exactly when no entered triplet contradicts it, and each of its own triplets is forced.
#![tactic(auto)]

ghost use Rattle.std.specs.Prelude.{◌≡◌, false, ◌≤◌, length};
ghost use Rattle.bodies.specs.Draws.{tree_of};
ghost use Rattle.bodies.specs.Nodes.{Good, nodes, bad_length};
ghost use Rattle.trees.specs.Trees.{Tree};
ghost use Rattle.groups.specs.Groups.{Candidate};
ghost use Rattle.answers.specs.Looks.{first_refusal};
ghost use Rattle.checking.specs.Checks.{answer_of, candidate_looks, look_pc, triples_looks, check_answer};

use groups::{Drawing, Grouped};
use refusals::{Contradiction, Refusal};

// 2, 7, 8, 5, 6: the looks at a table, and at the body of a tree that is held against it.
pub fn look_candidate(n: usize, t: &[u8], body: &[u8]) -> Result<(), Refusal>
    ensures { result ≡ first_refusal (candidate_looks n t.now body.now) }
{
    answers::look_table(n, t)?;
    answers::look_body(0, n, body)
}

// PC of a candidate, by its species and its smallest common groups: 11 with the first triple that contradicts it.
pub fn look_pc(n: usize, t: &[u8], d: Drawing) -> Result<(), Refusal>
    requires { (n ≤ 64) × ((T : Tree) × Candidate n T d.whole d.meets.now) }
    ensures { (T : Tree) → Candidate n T d.entry.whole d.entry.meets.now → result ≡ look_pc n t.now T }
{
    if let Some(x) = pc::first_contradiction(n, t, d) {
        return Err(Refusal::Contradicted(Contradiction {
            index: triples::index(x.low, x.mid, x.high),
            byte: tables::byte(t, x.low, x.mid, x.high),
        }));
    }
    Ok(())
}

// PC, and then PI, of the tree of a good body.
fn judge(n: usize, t: &[u8], body: &[u8]) -> Result<(), Refusal>
    requires { (n ≤ 64) × Good n (nodes body.now) × (bad_length (length body.now) ≡ false) }
    ensures { result ≡ answer_of (triples_looks n t.now (tree_of body.now)) }
{
    let mut groups = [0; bodies::MOST_NODES];
    let mut meets = [0; groups::CELLS];
    let whole = groups::draw(body, &mut groups, &mut meets);
    let drawing = Drawing {
        whole,
        meets: &meets,
    };
    look_pc(n, t, drawing)?;
    let mut masks = [0; groups::CELLS];
    masks::relate(t, n, drawing, &mut masks);
    let grouped = Grouped {
        body,
        groups: &groups,
    };
    if earned::earned(grouped, &masks) {
        return Ok(());
    }
    if let Some(x) = pi::first_unforced(n, drawing, &masks) {
        return Err(Refusal::Unforced(triples::index(x.low, x.mid, x.high)));
    }
    Ok(())
}

// Checks the tree of a body with species below n against the table t. Nothing is changed.
pub fn check(n: usize, t: &[u8], body: &[u8]) -> Result<(), Refusal>
    ensures { result ≡ check_answer n t.now body.now }
{
    look_candidate(n, t, body)?;
    judge(n, t, body)
}
