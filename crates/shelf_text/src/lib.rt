// What `shelf` prints, as text.
#![tactic(auto, using(writing::proofs::Writing::writes))]

ghost use Rattle.std.specs.Prelude.{◌≡◌, ◌≤◌, length};
ghost use Rattle.collections.specs.Collection.{Collection};
ghost use Rattle.collections.specs.Layout.{species};
ghost use Rattle.listing.specs.Lists.{list_of};
ghost use Rattle.writing.specs.Pages.{wrote_on};
ghost use Rattle.shelf_text.specs.Texts.{line, numbers};
ghost use Rattle.shelf_text.specs.Shelf.{unread_numbers, shown_numbers, body_text, table_text, shelf_text};

use refusals::Reply;
use writing::Text;

// Writes a line of a word and numbers.
fn put_line(out: &mut Text, w: &[u8], l: &[u64])
    ensures { out.new ≡ wrote_on out.old (line w.now l.now) }
{
    out.word(w);
    out.numbers(l);
    out.push(b'\n');
}

// Writes a line of the bytes of a body.
fn put_body(out: &mut Text, body: &[u8])
    ensures { out.new ≡ wrote_on out.old (numbers body.now) }
{
    if body.len() == 0 {
        out.push(b'\n');
        return;
    }
    out.decimal(u64::from(body[0]));
    out.numbers(&body[1..]);
    out.push(b'\n');
}

// A refused collection in numbers: the number, the tree number and the node. The count of bytes left over, which 4 returns, is neither.
fn unread(s: Reply) -> [u64; 3]
    ensures { result ≡ unread_numbers s.number (s.values) }
{
    let k = s.number as u64;
    let v = s.values.as_slice();
    if k == 4 || v.len() == 0 {
        return [k, 0, 0];
    }
    if v.len() == 1 {
        return [k, v[0] as u64, 0];
    }
    [k, v[0] as u64, v[1] as u64]
}

// Writes the line of a build or a check: the number, and the first value.
fn put_shown(out: &mut Text, w: &[u8], s: Reply)
    ensures { out.new ≡ wrote_on out.old (line w.now (shown_numbers s.number (s.values))) }
{
    let k = s.number as u64;
    match s.values.as_slice().first() {
        Some(v) => put_line(out, w, &[k, *v as u64]),
        None => put_line(out, w, &[k]),
    }
}

// Writes a body, and the line of its check.
fn body_lines(out: &mut Text, n: usize, t: &[u8], body: &[u8])
    ensures { out.new ≡ wrote_on out.old (body_text n t.now body.now) }
{
    put_body(out, body);
    let a = checking::check(n, t, body);
    put_shown(out, b"check", replies::answer(a));
}

// Builds the tree of a set of species, of the table t, and writes what comes of it.
fn build_lines(out: &mut Text, n: usize, set: u64, t: &[u8])
    ensures { out.new ≡ wrote_on out.old (table_text n set t.now) }
{
    let mut room = [0; bodies::LONGEST];
    let a = building::build(n, set, t, &mut room).answer;
    put_shown(out, b"build", replies::answer(a));
    if let Ok(w) = a {
        let end = bodies::body_length(w.nodes);
        body_lines(out, n, t, &room[..end]);
    }
}

// Lists a collection that can be read, and goes on with its table, over a set of species.
fn listed_lines(out: &mut Text, b: &[u8], n: usize, set: u64, table: &mut [u8])
    requires table_len { length table.old ≡ 41664 }
    requires collection { Collection b.now × (n ≡ species b.now) }
    ensures { out.new ≡ wrote_on out.old (table_text n set (list_of b.now)) }
{
    let k = triples::count(n);
    let _ = listing::list(b, &mut table[..k]);
    build_lines(out, n, set, &table[..k]);
}

// Writes what `shelf` prints of a collection, where there is room for any. What the table and the text held does not matter.
pub fn shelf(b: &[u8], table: &mut [u8; 41664], out: &mut Text)
    requires { (length table.old ≡ 41664) × (8192 ≤ out.old.room) }
    ensures { out.new ≡ record out.old { text = shelf_text b.now } }
{
    out.clear();
    match collections::read(b) {
        Ok(c) => listed_lines(out, b, c.n, c.set, table),
        Err(x) => put_line(out, b"read", &unread(Reply::from(x))),
    }
}
