// The number of species of some bodies: one more than the highest species.
#![tactic(auto)]

ghost use Rattle.std.specs.Prelude.{◌≡◌};
ghost use Rattle.highest.specs.Bound.{one_more', top_of};

// One more than the species of a node; 0 for a node with children.
fn one_more(s: u8) -> usize
    ensures { result ≡ one_more' s }
{
    if s == bodies::NONE {
        0
    } else {
        usize::from(s) + 1
    }
}

// One more than the highest species of a body.
#[tactic(auto, unfolding(crate::specs::Bound::top_among))]
pub fn top(body: &[u8]) -> usize
    ensures { result ≡ top_of body.now }
{
    let mut n = 0;
    for i in 0..bodies::node_count(body) {
        n = n.max(one_more(bodies::species(body, i)));
    }
    n
}
