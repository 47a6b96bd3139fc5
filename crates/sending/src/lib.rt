// What `pull` prints of a built tree: its check, the tree that may be sent, what was dropped, and the groups to pull by.
#![tactic(auto, using(writing::proofs::Writing::writes))]

ghost use Rattle.std.specs.Prelude.{◌≡◌};
ghost use Rattle.answers.specs.Inputs.{Body, Count};
ghost use Rattle.writing.specs.Pages.{wrote_on};
ghost use Rattle.sending.specs.Words.{dropped_word};
ghost use Rattle.sending.specs.Pulls.{InPreorder, groups_text, species_lines};
ghost use Rattle.sending.specs.Sends.{lines_text, send_text, sent_text};

use writing::Text;

// Writes a line for each set that was dropped.
fn put_dropped(out: &mut Text, l: &[u64])
    ensures { out.new ≡ wrote_on out.old (species_lines dropped_word l.now) }
{
    for s in l {
        species_text::put_species(out, b"dropped:", *s);
    }
}

// Writes a line for each group to pull by: the inner nodes behind the root, of a body in preorder.
fn put_groups(out: &mut Text, body: &[u8])
    requires { InPreorder body.now }
    ensures { out.new ≡ wrote_on out.old (groups_text body.now) }
{
    let mut groups = [0; bodies::MOST_NODES];
    groups::groups(body, &mut groups);
    let count = bodies::node_count(body);
    let mut some = false;
    for i in 1..count {
        if bodies::species(body, i) == bodies::NONE {
            species_text::put_species(out, b"pull together:", groups[i]);
            some = true;
        }
    }
    if !some {
        out.word(b"pull nothing together: the tree has no group\n");
    }
}

// Writes the tree that may be sent, what was dropped, and the groups to pull by.
fn put_lines(out: &mut Text, n: usize, body: &[u8], dropped: &[u64])
    requires { Count n × Body n body.now × InPreorder body.now }
    ensures { out.new ≡ wrote_on out.old (lines_text body.now dropped.now) }
{
    species_text::put_tree(out, b"may be sent: ", n, body);
    put_dropped(out, dropped);
    put_groups(out, body);
}

// Loosens the tree of a good body, and writes what comes of it.
fn put_sent(out: &mut Text, n: usize, t: &[u8], body: &[u8])
    requires { Count n × Body n body.now }
    ensures { out.new ≡ wrote_on out.old (sent_text n t.now body.now) }
{
    let mut room = [0; bodies::LONGEST];
    let mut list = [0; loosening::MOST_DROPPED];
    match loosening::loosen(n, t, body, &mut room, &mut list) {
        Ok(w) => {
            let end = bodies::body_length(w.nodes);
            put_lines(out, n, &room[..end], &list[..w.dropped]);
        }
        Err(_) => {}
    }
}

// Writes what is printed of the tree of a good body, built from the table t of n species.
pub fn send(out: &mut Text, n: usize, t: &[u8], body: &[u8])
    requires { Count n × Body n body.now }
    ensures { out.new ≡ wrote_on out.old (send_text n t.now body.now) }
{
    verdict_text::put_verdict(out, n, t, body);
    put_sent(out, n, t, body);
}
