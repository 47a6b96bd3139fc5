// The line of a text that is refused: where in the input the text is wrong, what stands there, and what may stand there, in words.
#![tactic(auto, using(writing::proofs::Writing::writes))]

ghost use Rattle.std.specs.Prelude.{◌≡◌, ◌++◌, ◌-◌, ◌≤◌, length};
ghost use Rattle.writing.specs.Pages.{wrote_on};
ghost use Rattle.writing.specs.Texts.{decimal};
ghost use Rattle.places.specs.Causes.{cause_of};
ghost use Rattle.places.specs.NodePlaces.{place_in};
ghost use Rattle.refused_text.specs.Refused.{byte_text, found, wrong_text, broken_text, what_text, where_text, text_in, refused_line};

use writing::Text;

// The longest text.
const LONGEST: usize = 4096;

// Writes a word and a number.
fn put_counted(out: &mut Text, w: &[u8], n: u64)
    ensures { out.new ≡ wrote_on out.old (w.now ++ decimal n) }
{
    out.word(w);
    out.decimal(n);
}

// Writes a byte, so that it can be seen.
fn put_byte(out: &mut Text, b: u8)
    ensures { out.new ≡ wrote_on out.old (byte_text b) }
{
    if numerals::blank(b) {
        out.word(b"a blank");
    } else if b.is_ascii_graphic() {
        out.word(&[b'\'', b, b'\'']);
    } else {
        put_counted(out, b"byte ", u64::from(b));
    }
}

// Writes what stands at place q of the text.
fn put_found(out: &mut Text, text: &[u8], q: usize)
    requires { q ≤ length text.now }
    ensures { out.new ≡ wrote_on out.old (found text.now q) }
{
    match text.get(q) {
        Some(b) => put_byte(out, *b),
        None => out.word(b"the end"),
    }
}

// Writes what is wrong at place q of the text.
fn put_wrong(out: &mut Text, text: &[u8], q: usize)
    requires { q ≤ length text.now }
    ensures { out.new ≡ wrote_on out.old (wrong_text text.now q) }
{
    if q >= LONGEST {
        out.word(b"a text has at most 4096 bytes");
        return;
    }
    out.word(b"found ");
    put_found(out, text, q);
    out.word(b", expected ");
    standing::put_expected(out, text, q);
}

// Writes which rule the tree of a text breaks.
fn put_broken(out: &mut Text, f: bodies::Fault)
    ensures { out.new ≡ wrote_on out.old (broken_text f) }
{
    match f {
        bodies::Fault::BadParent(_) => out.word(b"this is no tree"),
        bodies::Fault::BadSpecies(s) => {
            put_counted(out, b"species ", u64::from(s));
            out.word(b", and the highest is 63");
        }
        bodies::Fault::SeenBefore(_) => out.word(b"this species stands twice"),
        bodies::Fault::OnlyChild => out.word(b"this bracket has one child"),
    }
}

// Writes why the text is refused.
fn put_what(out: &mut Text, text: &[u8], c: places::Cause)
    requires { place_in text.now c ≤ length text.now }
    ensures { out.new ≡ wrote_on out.old (what_text text.now c) }
{
    match c {
        places::Cause::AtPlace(q) => put_wrong(out, text, q),
        places::Cause::AtNode(x) => put_broken(out, x.fault),
        places::Cause::Other => {}
    }
}

// Writes the paper's number and the place.
fn put_where(out: &mut Text, paper: usize, x: places::LineColumn)
    ensures { out.new ≡ wrote_on out.old (where_text paper x) }
{
    put_counted(out, b"refused: paper ", paper as u64);
    put_counted(out, b", line ", x.line as u64);
    put_counted(out, b", column ", x.column as u64);
    out.word(b": ");
}

// Writes the line of a text that is refused: paper number `paper`, the bytes of the input from `start` up to `end`.
#[tactic(auto, using(writing::proofs::Writing::writes), unfolding(crate::specs::Refused::refused_line))]
pub fn put_refused(
    out: &mut Text,
    input: &[u8],
    paper: usize,
    start: usize,
    end: usize,
    why: refusals::Refusal,
)
    requires start_le_end { (start ≤ end) × (end ≤ length input.now) × (end ≤ 65536) }
    requires why_bound { place_in (text_in input.now start end) (cause_of why) ≤ end - start }
    ensures { out.new ≡ wrote_on out.old (refused_line input.now paper start end why) }
{
    let text = &input[start..end];
    let c = places::cause_of(why);
    let p = start + places::place_in(text, c);
    put_where(out, paper, places::line_column(&input[..p]));
    put_what(out, text, c);
    out.push(b'\n');
}
