// What either build takes: a table and a set of its species, of no others, and room enough.
#![tactic(auto)]

ghost use Rattle.std.specs.Prelude.{◌≡◌, ◌≤◌};
ghost use Rattle.answers.specs.Looks.{first_refusal};
ghost use Rattle.admitting.specs.GoodSet.{bad_set, input_looks};

use refusals::Refusal;

// Is the set empty, or has it a species that is not below n?
fn bad_set(n: usize, s: u64) -> bool
    requires { n ≤ 64 }
    ensures { result ≡ bad_set n s }
{
    s == 0 || !sets::subset(s, sets::all(n))
}

// Looks at all that is handed in, for a room of l bytes.
pub fn look_input(n: usize, set: u64, t: &[u8], l: usize) -> Result<(), Refusal>
    ensures { result ≡ first_refusal (input_looks n set t.now l) }
{
    answers::look_table(n, t)?;
    if bad_set(n, set) {
        return Err(Refusal::BadSet);
    }
    if let Some(x) = outside::first_outside(n, t, set) {
        return Err(Refusal::Outside(triples::index(x.low, x.mid, x.high)));
    }
    if l < bodies::room(sets::size(set) as usize) {
        return Err(Refusal::ShortRoom);
    }
    Ok(())
}
