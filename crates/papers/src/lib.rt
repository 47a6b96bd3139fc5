// The input of `pull` into the papers' collection: its texts, read one after the other.
#![tactic(auto)]

ghost use Rattle.std.specs.Prelude.{◌≡◌, ◌+◌, ◌≤◌, length};
ghost use Rattle.bodies.specs.Nodes.{longest};
ghost use Rattle.collections.specs.Layout.{longest_collection};
ghost use Rattle.papers.specs.OneText.{Laid, next_of};
ghost use Rattle.papers.specs.Reads.{Stored, papers_answer};

use refusals::Refusal;

// The most bytes of an input, and the most papers.
pub const MOST_BYTES: usize = 65536;

pub const MOST: usize = 16;

// How many species a text may name: 0 to 63.
const SPECIES: usize = 64;

// The collection that was read: n, how many trees, and how many bytes.
#[derive(Clone, Copy)]
pub struct Found {
    pub n: usize,
    pub trees: usize,
    pub end: usize,
}

// A text that is refused: its number from 1, where it begins and ends in the input, and why.
#[derive(Clone, Copy)]
pub struct Bad {
    pub paper: usize,
    pub start: usize,
    pub end: usize,
    pub why: Refusal,
}

// Why an input is not read.
#[derive(Clone, Copy)]
pub enum Unread {
    Long,
    Empty,
    Many,
    Bad(Bad),
}

// Behind one text: where the next body goes, and the bound of this one.
#[derive(Clone, Copy)]
struct Behind {
    next: usize,
    top: usize,
}

// Reads one text: its body goes to place p of the store, with its two length bytes.
fn one_text(text: &[u8], store: &mut [u8], p: usize) -> Result<Behind, Refusal>
    requires { p + 2 + longest ≤ length store.old }
    ensures value { (result ≡ next_of text.now p) × Laid text.now p store.old result store.new }
    ensures store_len_unchanged { length store.new ≡ length store.old }
{
    let from = p + 2;
    let parsed = parsing::parse(SPECIES, text, &mut store[from..])?;
    let l = bodies::body_length(parsed.nodes);
    store[p] = 0;
    store[p + 1] = l as u8;
    let next = from + l;
    let top = highest::top(&store[from..next]);
    Ok(Behind { next, top })
}

// Reads the texts of the input into a collection, at the front of the store. After a refusal nothing is said of the store.
pub fn read(input: &[u8], store: &mut [u8; collections::LONGEST]) -> Result<Found, Unread>
    requires { length store.old ≡ longest_collection }
    ensures value { result ≡ papers_answer input.now }
    ensures stored { Stored input.now result store.new × (length store.new ≡ longest_collection) }
{
    if input.len() > MOST_BYTES {
        return Err(Unread::Long);
    }
    let mut n = 0;
    let mut trees = 0;
    let mut at = 0;
    let mut p = 3;
    while !texts::blanks_only(input, at) {
        if trees == MOST {
            return Err(Unread::Many);
        }
        let end = texts::text_end(input, at);
        match one_text(&input[at..end], store, p) {
            Ok(x) => {
                n = n.max(x.top);
                p = x.next;
            }
            Err(why) => {
                return Err(Unread::Bad(Bad {
                    paper: trees + 1,
                    start: at,
                    end,
                    why,
                }));
            }
        }
        trees += 1;
        at = end;
    }
    if trees == 0 {
        return Err(Unread::Empty);
    }
    store[0] = 1;
    store[1] = n as u8;
    store[2] = trees as u8;
    Ok(Found { n, trees, end: p })
}
