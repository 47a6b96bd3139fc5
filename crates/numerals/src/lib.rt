// Blanks, digits, species numbers and branch lengths of a Newick text.
#![tactic(auto)]

ghost use Rattle.std.specs.Prelude.{◌≡◌, ℕ, false, true, ◌-◌, ◌<◌, ◌≤◌, length, get_or};
ghost use Rattle.std.proofs.Math.Bool.{So};
ghost use Rattle.newick.specs.Form.{blank, digit};
ghost use Rattle.refusals.specs.declared.Refusal.TheVariants.{BadText};
ghost use Rattle.numerals.specs.Goes.{PastBlanks, PastDigits, Numbered, Branched, Parted};

// The largest species number.
const LARGEST: usize = 254;

// The place of a text that is refused.
#[derive(Clone, Copy)]
pub struct BadPlace(pub usize);

// A refused place is refusal 14.
impl From<BadPlace> for refusals::Refusal {
    ghost from_gives = { λ q x. x ≡ BadText q.0 };

    fn from(q: BadPlace) -> refusals::Refusal {
        refusals::Refusal::BadText(q.0)
    }
}

// A species number and the place behind it.
#[derive(Clone, Copy)]
pub struct Numeral {
    pub value: u8,
    pub end: usize,
}

// The place behind what was read, and how many nodes there are.
#[derive(Clone, Copy)]
pub struct Got {
    pub end: usize,
    pub nodes: usize,
}

// Is b a space, or byte 10 or 13?
pub fn blank(b: u8) -> bool
    ensures { result ≡ blank b }
{
    matches!(b, b' ' | b'\n' | b'\r')
}

// Is b a digit?
pub fn digit(b: u8) -> bool
    ensures { result ≡ digit b }
{
    b.is_ascii_digit()
}

// The place behind the bytes from `at` on that pass a test.
fn past<F: Fn(u8) -> bool>(text: &[u8], at: usize, passes: F) -> usize
    requires at_in_bounds { at ≤ length text.now }
    requires callable { F.IsAlwaysCallable passes }
    ensures ahead { at ≤ result }
    ensures within { result ≤ length text.now }
    ensures passed { (k : ℕ) → at ≤ k → k < result → F.post passes (get_or text.now k 0) true }
    ensures stopped { result < length text.now → F.post passes (get_or text.now result 0) false }
{
    for i in at..text.len() {
        if !passes(text[i]) {
            return i;
        }
    }
    text.len()
}

// The place behind the blanks that stand at `at`.
pub fn skip(text: &[u8], at: usize) -> usize
    requires { at ≤ length text.now }
    ensures { PastBlanks text.now at result }
{
    past(text, at, blank)
}

// The place behind the digits that stand at `at`.
fn digits(text: &[u8], at: usize) -> usize
    requires { at ≤ length text.now }
    ensures { PastDigits text.now at result }
{
    past(text, at, digit)
}

// The value of a digit.
fn value(b: u8) -> usize
    requires { So (digit b) }
    ensures { result ≡ b - 48 }
{
    usize::from(b - b'0')
}

// The species number whose first digit stands at `at`.
pub fn number(text: &[u8], at: usize) -> Result<Numeral, BadPlace>
    requires { (at < length text.now) × So (digit (get_or text.now at 0)) }
    ensures { Numbered text.now at result }
{
    let mut v = value(text[at]);
    for i in at + 1..text.len() {
        if !digit(text[i]) {
            return Ok(Numeral {
                value: v as u8,
                end: i,
            });
        }
        let x = 10 * v + value(text[i]);
        if v == 0 || x > LARGEST {
            return Err(BadPlace(i));
        }
        v = x;
    }
    Ok(Numeral {
        value: v as u8,
        end: text.len(),
    })
}

// The place behind a point and digits, if they stand at `at`, and the blanks behind them.
fn fraction(text: &[u8], at: usize, nodes: usize) -> Result<Got, BadPlace>
    requires at_in_bounds { at ≤ length text.now }
    requires at_value { at < length text.now → digit (get_or text.now at 0) ≡ false }
    ensures { Parted text.now at nodes result }
{
    if at < text.len() && text[at] == b'.' {
        let next = at + 1;
        if next < text.len() && digit(text[next]) {
            let end = skip(text, digits(text, next));
            return Ok(Got { end, nodes });
        }
        return Err(BadPlace(next));
    }
    let end = skip(text, at);
    Ok(Got { end, nodes })
}

// The place behind a branch length, if one stands at `at`, and the blanks behind it.
pub fn branch(text: &[u8], at: usize, nodes: usize) -> Result<Got, BadPlace>
    requires { at ≤ length text.now }
    ensures { Branched text.now at nodes result }
{
    let i = skip(text, at);
    if i < text.len() && text[i] == b':' {
        let j = skip(text, i + 1);
        if j < text.len() && digit(text[j]) {
            return fraction(text, digits(text, j), nodes);
        }
        return Err(BadPlace(j));
    }
    Ok(Got { end: i, nodes })
}
