// Lines of species, and lines of a tree.
#![tactic(auto, using(writing::proofs::Writing::writes))]

ghost use Rattle.std.specs.Prelude.{◌≡◌};
ghost use Rattle.answers.specs.Inputs.{Body, Count};
ghost use Rattle.writing.specs.Pages.{wrote_on};
ghost use Rattle.species_text.specs.Lines.{species_line, tree_line};

use writing::Text;

// Writes a line of a word and the species of a set, from the lowest up.
pub fn put_species(out: &mut Text, w: &[u8], s: u64)
    ensures { out.new ≡ wrote_on out.old (species_line w.now s) }
{
    out.word(w);
    for x in sets::species(s) {
        out.spaced(x as u64);
    }
    out.push(b'\n');
}

// Writes a line of a word and the tree of a good body.
pub fn put_tree(out: &mut Text, w: &[u8], n: usize, body: &[u8])
    requires { Count n × Body n body.now }
    ensures { out.new ≡ wrote_on out.old (tree_line w.now body.now) }
{
    let mut text = [0; rendering::LONGEST];
    match rendering::render(n, body, &mut text) {
        Ok(x) => {
            out.word(w);
            out.word(&text[..x.length]);
            out.push(b'\n');
        }
        Err(_) => {}
    }
}
