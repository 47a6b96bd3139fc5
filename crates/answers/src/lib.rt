// The looks at what is handed in that several operations share.
#![tactic(auto)]

ghost use Rattle.std.specs.Prelude.{◌≡◌, [], ◌∷◌, length};
ghost use Rattle.answers.specs.Looks.{first_refusal, wrong_count, look_count, look_table, look_bytes, look_length, look_rules};

use refusals::Refusal;

// What was written to the front of a room: "order and build: node count".
#[derive(Clone, Copy)]
pub struct Written {
    pub nodes: usize,
}

// Is n 0 or over 64?
fn wrong_count(n: usize) -> bool
    ensures { result ≡ wrong_count n }
{
    n == 0 || n > 64
}

// Looks at a number of species.
pub fn look_count(n: usize) -> Result<(), Refusal>
    ensures { result ≡ look_count n }
{
    if wrong_count(n) {
        return Err(Refusal::BadCounts);
    }
    Ok(())
}

// Looks at a number of species, and a table of them.
pub fn look_table(n: usize, t: &[u8]) -> Result<(), Refusal>
    ensures { result ≡ first_refusal (look_count n ∷ look_table n (length t.now) ∷ look_bytes t.now ∷ []) }
{
    look_count(n)?;
    if !tables::fits(t, n) {
        return Err(Refusal::BadTable);
    }
    match tables::over(t) {
        Some(i) => Err(Refusal::BadByte(i)),
        None => Ok(()),
    }
}

// Looks at the body of tree k, over n species.
pub fn look_body(k: usize, n: usize, body: &[u8]) -> Result<(), Refusal>
    ensures { result ≡ first_refusal (look_length k (length body.now) ∷ look_rules k n body.now ∷ []) }
{
    if bodies::bad_length(body.len()) {
        return Err(Refusal::BadLength(k));
    }
    rules::first_fault(k, n, body)?;
    Ok(())
}
