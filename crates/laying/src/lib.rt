// A reply laid into lent numbers: its values one after the other, as far as there is room.
#![tactic(auto)]

ghost use Rattle.std.specs.Prelude.{◌≡◌, ◌++◌, set};
ghost use Rattle.laying.specs.Codes.{fault_code, rule_code, Lays};

use refusals::Reply;

// A fault by two numbers: which it is, and its own data.
fn fault_code(f: bodies::Fault) -> [usize; 2]
    ensures { result ≡ fault_code f }
{
    match f {
        bodies::Fault::BadParent(p) => [1, usize::from(p)],
        bodies::Fault::BadSpecies(s) => [2, usize::from(s)],
        bodies::Fault::SeenBefore(i) => [3, i],
        bodies::Fault::OnlyChild => [4, 0],
    }
}

// Writes x at place i, where there is room.
pub fn put(values: &mut [usize], i: usize, x: usize)
    ensures { values.new ≡ set values.old i x }
{
    if i < values.len() {
        values[i] = x;
    }
}

// Lays down a reply: writes its values, and behind them the rule that is broken, and answers its number.
pub fn lay(s: Reply, values: &mut [usize]) -> usize
    ensures { Lays s.number (s.values ++ rule_code s.rule) values.old result values.new }
{
    let held = s.values.as_slice();
    let count = held.len();
    for (i, x) in held.iter().enumerate() {
        put(values, i, *x);
    }
    if let Some(f) = s.rule {
        let code = fault_code(f);
        put(values, count, code[0]);
        put(values, count + 1, code[1]);
    }
    s.number
}
