// The lines of the papers: each as it was read, and what each says of some species.
#![tactic(auto, using(writing::proofs::Writing::writes))]

ghost use Rattle.std.specs.Prelude.{◌≡◌, ◌<◌};
ghost use Rattle.answers.specs.Inputs.{Body};
ghost use Rattle.collections.specs.Collection.{Collection};
ghost use Rattle.collections.specs.Layout.{species, trees};
ghost use Rattle.writing.specs.Pages.{wrote_on};
ghost use Rattle.papers_text.specs.Lines.{numbered, papers_text, side_line, sides_text};

use writing::Text;

// Writes which paper it is, tree k of the collection.
fn put_number(out: &mut Text, k: usize)
    requires { k < 16 }
    ensures { out.new ≡ wrote_on out.old (numbered k) }
{
    out.word(b"paper ");
    out.decimal(k as u64 + 1);
}

// Writes a line for each paper of a collection of n species: its tree.
pub fn put_papers(out: &mut Text, n: usize, c: &[u8], count: usize)
    requires { Collection c.now × (n ≡ species c.now) × (count ≡ trees c.now) }
    ensures { out.new ≡ wrote_on out.old (papers_text c.now count) }
{
    for k in 0..count {
        put_number(out, k);
        species_text::put_tree(out, b": ", n, collections::body(c, k));
    }
}

// Writes the line of one paper, tree k of the collection: its tree cut to the species of `set`.
fn put_side(out: &mut Text, set: u64, k: usize, body: &[u8])
    requires { (k < 16) × Body 64 body.now }
    ensures { out.new ≡ wrote_on out.old (side_line set k body.now) }
{
    let mut groups = [0; bodies::MOST_NODES];
    groups::groups(body, &mut groups);
    put_number(out, k);
    if sets::size(sets::meet(groups[0], set)) < 3 {
        out.word(b" says nothing of these\n");
        return;
    }
    out.word(b" says of these: ");
    cutting::put_cut(body, set, out);
    out.push(b'\n');
}

// Writes a line for each paper of a collection: what it says of the species of `set`.
pub fn put_sides(out: &mut Text, set: u64, c: &[u8], count: usize)
    requires { Collection c.now × (count ≡ trees c.now) }
    ensures { out.new ≡ wrote_on out.old (sides_text set c.now count) }
{
    for k in 0..count {
        put_side(out, set, k, collections::body(c, k));
    }
}
