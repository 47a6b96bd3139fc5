// What may stand at a place of a Newick text: the signs that are tried there, and the names of those that are not refused.
#![tactic(auto, using(writing::proofs::Writing::writes))]

ghost use Rattle.std.specs.Prelude.{◌≡◌, ◌++◌, ◌<◌, ◌≤◌, length};
ghost use Rattle.newick.specs.Texts.{longest_text};
ghost use Rattle.writing.specs.Pages.{wrote_on};
ghost use Rattle.standing.specs.Expected.{is_at, stops_at, may_stand, sign_name, between, expected};

use answers::Written;
use refusals::Refusal;
use writing::Text;

// The longest text, and the most species.
const LONGEST: usize = 4096;

const MOST_SPECIES: usize = 64;

// The signs that are tried: a digit, the brackets, a comma, a colon, a point, a semicolon.
const SIGNS: [u8; 7] = [b'0', b'(', b')', b',', b':', b'.', b';'];

// Is the cause 14 at place q?
fn is_at(c: places::Cause, q: usize) -> bool
    ensures { result ≡ is_at q c }
{
    matches!(c, places::Cause::AtPlace(p) if p == q)
}

// Is the answer refusal 14 at place q?
fn stops_at(a: Result<Written, Refusal>, q: usize) -> bool
    ensures { result ≡ stops_at q a }
{
    matches!(a, Err(x) if is_at(places::cause_of(x), q))
}

// May byte b stand at place q of the text?
#[tactic(auto, using(crate::proofs::Tried::tried), unfolding(crate::specs::Expected::may_stand))]
fn may_stand(text: &[u8], q: usize, b: u8) -> bool
    requires { (q ≤ length text.now) × (q < longest_text) }
    ensures { result ≡ may_stand text.now q b }
{
    let mut draft = [0; LONGEST];
    let mut room = [0; bodies::LONGEST];
    draft[..q].copy_from_slice(&text[..q]);
    draft[q] = b;
    let end = q + 1;
    let a = parsing::parse(MOST_SPECIES, &draft[..end], &mut room);
    !stops_at(a, q)
}

// The name of a sign.
fn name_of(sign: u8) -> &'static [u8]
    ensures { result.now ≡ sign_name sign }
{
    match sign {
        b'0' => b"a digit",
        b'(' => b"an opening bracket",
        b')' => b"a closing bracket",
        b',' => b"a comma",
        b':' => b"a colon",
        b'.' => b"a point",
        _ => b"a semicolon",
    }
}

// Writes the name of a sign, behind ` or ` where there are names before.
fn put_name(out: &mut Text, sign: u8, some: bool)
    ensures { out.new ≡ wrote_on out.old (between some ++ sign_name sign) }
{
    if some {
        out.word(b" or ");
    }
    out.word(name_of(sign));
}

// Writes the names of the signs that may stand at place q of the text.
#[tactic(auto, using(writing::proofs::Writing::writes, crate::proofs::Names::names_end))]
pub fn put_expected(out: &mut Text, text: &[u8], q: usize)
    requires { (q ≤ length text.now) × (q < longest_text) }
    ensures { out.new ≡ wrote_on out.old (expected text.now q) }
{
    let mut some = false;
    for sign in &SIGNS {
        if may_stand(text, q, *sign) {
            put_name(out, *sign, some);
            some = true;
        }
    }
    if !some {
        out.word(b"nothing more");
    }
}
