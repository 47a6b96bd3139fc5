// What `pull` prints of a table that is built over a set of species: the tree, or over what the papers quarrel and the tree that leaves that open.
#![tactic(auto, using(writing::proofs::Writing::writes))]

ghost use Rattle.std.specs.Prelude.{◌≡◌};
ghost use Rattle.answers.specs.Inputs.{Body, Count};
ghost use Rattle.refusals.specs.Refusals.{refusal_told};
ghost use Rattle.collections.specs.Collection.{Collection};
ghost use Rattle.collections.specs.Layout.{trees};
ghost use Rattle.writing.specs.Pages.{wrote_on};
ghost use Rattle.built_text.specs.Built.{built_text, quarrel_text, tree_text, veto_text};

use writing::Text;

// Writes the line of a built tree, and what is said of it.
fn put_tree(out: &mut Text, w: &[u8], n: usize, t: &[u8], body: &[u8])
    requires { Count n × Body n body.now }
    ensures { out.new ≡ wrote_on out.old (tree_text w.now n t.now body.now) }
{
    species_text::put_tree(out, w, n, body);
    sending::send(out, n, t, body);
}

// Makes the veto build of a set of species, and writes what comes of it.
fn put_open(out: &mut Text, n: usize, set: u64, t: &[u8])
    ensures { out.new ≡ wrote_on out.old (veto_text n set t.now) }
{
    let mut room = [0; bodies::LONGEST];
    match building::veto(n, set, t, &mut room).answer {
        Ok(w) => {
            let end = bodies::body_length(w.nodes);
            put_tree(out, b"built, leaving that open: ", n, t, &room[..end]);
        }
        Err(_) => {}
    }
}

// Writes which species the papers of a collection quarrel over, what each says of them, and the tree that leaves it open.
fn put_quarrel(
    out: &mut Text,
    c: &[u8],
    count: usize,
    n: usize,
    set: u64,
    t: &[u8],
    x: refusals::Refusal,
)
    requires { Collection c.now × (count ≡ trees c.now) }
    ensures { out.new ≡ wrote_on out.old (quarrel_text c.now n set t.now (refusal_told x)) }
{
    match x {
        refusals::Refusal::NoTree(u) => {
            species_text::put_species(out, b"the papers quarrel over", u);
            papers_text::put_sides(out, u, c, count);
            put_open(out, n, set, t);
        }
        _ => {}
    }
}

// Builds the tree of the papers of a collection, over a set of species, and writes what comes of it.
pub fn put_built(out: &mut Text, c: &[u8], count: usize, n: usize, set: u64, t: &[u8])
    requires { Collection c.now × (count ≡ trees c.now) }
    ensures { out.new ≡ wrote_on out.old (built_text c.now n set t.now) }
{
    let mut room = [0; bodies::LONGEST];
    match building::build(n, set, t, &mut room).answer {
        Ok(w) => {
            let end = bodies::body_length(w.nodes);
            put_tree(out, b"built: ", n, t, &room[..end]);
        }
        Err(x) => put_quarrel(out, c, count, n, set, t, x),
    }
}
