// The line of the check of a built tree: that it passes, or the first triplet that is not forced.
#![tactic(auto, using(writing::proofs::Writing::writes))]

ghost use Rattle.std.specs.Prelude.{◌≡◌};
ghost use Rattle.triples.specs.Named.{named};
ghost use Rattle.bodies.specs.Draws.{tree_of};
ghost use Rattle.answers.specs.Inputs.{Body, Count};
ghost use Rattle.writing.specs.Pages.{wrote_on};
ghost use Rattle.verdict_text.specs.Verdict.{closer_text, said_text, triple_text, verdict_text};

use groups::Drawing;
use refusals::Refusal;
use writing::Text;

// Writes the line of a triplet that is not forced.
fn put_closer(out: &mut Text, a: usize, b: usize, c: usize)
    ensures { out.new ≡ wrote_on out.old (closer_text a b c) }
{
    out.word(b"not forced by the papers: ");
    out.decimal(a as u64);
    out.word(b" and ");
    out.decimal(b as u64);
    out.word(b" closer to each other than to ");
    out.decimal(c as u64);
    out.push(b'\n');
}

// Writes the line of what a tree says of a triple.
fn put_said(out: &mut Text, x: triples::Triple, s: groups::Says)
    ensures { out.new ≡ wrote_on out.old (said_text x s) }
{
    match s {
        groups::Says::AB => put_closer(out, x.low, x.mid, x.high),
        groups::Says::AC => put_closer(out, x.low, x.high, x.mid),
        groups::Says::BC => put_closer(out, x.mid, x.high, x.low),
        groups::Says::Fan | groups::Says::Absent => {}
    }
}

// Writes the line of what the tree of a good body says of the triple with index i.
fn put_triple(out: &mut Text, body: &[u8], i: usize)
    requires { Body 64 body.now }
    ensures { out.new ≡ wrote_on out.old (triple_text (tree_of body.now) (named i)) }
{
    if let Some(x) = triples::triple_at(i) {
        let mut groups = [0; bodies::MOST_NODES];
        let mut meets = [0; groups::CELLS];
        let whole = groups::draw(body, &mut groups, &mut meets);
        let drawing = Drawing {
            whole,
            meets: &meets,
        };
        put_said(out, x, drawing.ask(x.low, x.mid, x.high));
    }
}

// Checks the tree of a good body, and writes the line of that.
pub fn put_verdict(out: &mut Text, n: usize, t: &[u8], body: &[u8])
    requires { Count n × Body n body.now }
    ensures { out.new ≡ wrote_on out.old (verdict_text n t.now body.now) }
{
    match checking::check(n, t, body) {
        Ok(()) => out.word(b"every group is the papers' own\n"),
        Err(Refusal::Unforced(i)) => put_triple(out, body, i),
        Err(_) => {}
    }
}
