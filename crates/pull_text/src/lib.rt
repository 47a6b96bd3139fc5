// What `pull` prints, as text.
#![tactic(auto, using(writing::proofs::Writing::writes))]

ghost use Rattle.std.specs.Prelude.{◌≡◌, ◌≤◌, length, take};
ghost use Rattle.collections.specs.Collection.{Collection};
ghost use Rattle.collections.specs.Layout.{longest_collection, species, trees};
ghost use Rattle.writing.specs.Pages.{wrote_on};
ghost use Rattle.pull_text.specs.Pull.{collection_text, pull_text, story_text};

use papers::Unread;
use writing::Text;

// How many bytes are always enough.
pub const MOST_TEXT: usize = 40960;

// Lists a collection that can be read, and goes on with its table, over the set that occurs.
fn put_story(out: &mut Text, c: &[u8], count: usize, n: usize, set: u64, table: &mut [u8])
    requires table_len { length table.old ≡ 41664 }
    requires collection { Collection c.now × (count ≡ trees c.now) × (n ≡ species c.now) }
    ensures { out.new ≡ wrote_on out.old (story_text c.now n set) }
{
    papers_text::put_papers(out, n, c, count);
    let k = triples::count(n);
    let _ = listing::list(c, &mut table[..k]);
    built_text::put_built(out, c, count, n, set, &table[..k]);
}

// Reads what was bundled, the first `end` bytes of the store, and writes what `pull` prints of it.
fn put_collection(out: &mut Text, store: &[u8], end: usize, table: &mut [u8])
    requires { (end ≤ length store.now) × (length table.old ≡ 41664) }
    ensures { out.new ≡ wrote_on out.old (collection_text (take end store.now)) }
{
    let c = &store[..end];
    match collections::read(c) {
        Ok(x) => put_story(out, c, x.trees, x.n, x.set, table),
        Err(_) => {}
    }
}

// Writes what `pull` prints of its input, where there is room for any. What store, table and text held does not matter.
pub fn pull(
    input: &[u8],
    store: &mut [u8; collections::LONGEST],
    table: &mut [u8; 41664],
    out: &mut Text,
)
    requires { (length store.old ≡ longest_collection) × (length table.old ≡ 41664) × (MOST_TEXT ≤ out.old.room) }
    ensures { out.new ≡ record out.old { text = pull_text input.now } }
{
    out.clear();
    match papers::read(input, store) {
        Ok(f) => put_collection(out, store, f.end, table),
        Err(Unread::Long) => out.word(b"refused: more than 65536 bytes\n"),
        Err(Unread::Empty) => out.word(b"refused: no paper\n"),
        Err(Unread::Many) => out.word(b"refused: more than 16 papers\n"),
        Err(Unread::Bad(x)) => {
            refused_text::put_refused(out, input, x.paper, x.start, x.end, x.why)
        }
    }
}
