// Why a Newick text is refused, at which place of it, and at which line and column of the input.
#![tactic(auto)]

ghost use Rattle.std.specs.Prelude.{cond, ◌≡◌, ◌≤◌, length};
ghost use Rattle.newick.specs.Place.{Spot, node_begins, onward};
ghost use Rattle.newick.specs.Signs.{sign};
ghost use Rattle.places.specs.LineColumns.{line_column_from};
ghost use Rattle.places.specs.NodePlaces.{fresh_at, node_place, place_in};
ghost use Rattle.places.specs.Causes.{cause_of};

// A line of the input and a column in it, both counted from 1.
#[derive(Clone, Copy)]
pub struct LineColumn {
    pub line: usize,
    pub column: usize,
}

// Why a text is refused: by 14 at a place of it, by 6 at a node of its tree, or by another number.
#[derive(Clone, Copy)]
pub enum Cause {
    AtPlace(usize),
    AtNode(bodies::Broken),
    Other,
}

// The line and the column of the place behind these bytes.
pub fn line_column(before: &[u8]) -> LineColumn
    requires { length before.now ≤ 65536 }
    ensures { result ≡ line_column_from 1 1 before.now }
{
    let mut line = 1;
    let mut column = 1;
    for b in before {
        if *b == b'\n' {
            line += 1;
            column = 1;
        } else {
            column += 1;
        }
    }
    LineColumn { line, column }
}

// Does a node begin with byte b, where a subtree may begin (fresh) or not?
fn begins(fresh: bool, b: u8) -> bool
    ensures { (p : Spot) → fresh_at p ≡ fresh → cond result 1 0 ≡ node_begins p (sign b) }
{
    fresh && (b == b'(' || numerals::digit(b))
}

// May a subtree begin behind byte b?
fn fresh_behind(fresh: bool, b: u8) -> bool
    ensures { (p : Spot) → fresh_at p ≡ fresh → fresh_at (onward p (sign b)) ≡ result }
{
    match b {
        b'(' | b',' => true,
        _ => fresh && numerals::blank(b),
    }
}

// The place where node m begins in a text; the text's length where there is no node m.
fn node_place(text: &[u8], m: usize) -> usize
    ensures { result ≡ node_place text.now m }
{
    let mut fresh = true;
    let mut left = m;
    for (i, b) in text.iter().enumerate() {
        if begins(fresh, *b) {
            if left == 0 {
                return i;
            }
            left -= 1;
        }
        fresh = fresh_behind(fresh, *b);
    }
    text.len()
}

// The cause that a refusal names.
pub fn cause_of(why: refusals::Refusal) -> Cause
    ensures { result ≡ cause_of why }
{
    match why {
        refusals::Refusal::BadText(q) => Cause::AtPlace(q),
        refusals::Refusal::BadTree(x) => Cause::AtNode(x),
        _ => Cause::Other,
    }
}

// The place in the text of a cause.
pub fn place_in(text: &[u8], c: Cause) -> usize
    ensures { result ≡ place_in text.now c }
{
    match c {
        Cause::AtPlace(q) => q,
        Cause::AtNode(x) => node_place(text, x.node),
        Cause::Other => 0,
    }
}
