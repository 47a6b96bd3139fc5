// Loosening a tree by a table: what is refused, and else what its turns come to.
#![tactic(auto)]

ghost use Rattle.std.specs.Prelude.{◌≡◌, false, ◌≤◌, length};
ghost use Rattle.bodies.specs.Nodes.{Good, bad_length, nodes};
ghost use Rattle.easing.specs.Eases.{lent};
ghost use Rattle.loosening.specs.Loosens.{Loosens, Settles};

use easing::Tally;
use groups::Drawing;
use refusals::Refusal;

// The most sets that are dropped: a tree of 64 species has no more groups of two species or more, the root's aside.
pub const MOST_DROPPED: usize = 62;

// The tree of a good body: refused where the table contradicts it or too little is lent, else loosened.
fn settle(
    n: usize,
    t: &[u8],
    body: &[u8],
    room: &mut [u8],
    list: &mut [u64],
) -> Result<Tally, Refusal>
    requires { (n ≤ 64) × Good n (nodes body.now) × (bad_length (length body.now) ≡ false) }
    ensures { Settles n t.now body.now (lent room.old list.old) result (lent room.new list.new) }
{
    let mut groups = [0; bodies::MOST_NODES];
    let mut meets = [0; groups::CELLS];
    let whole = groups::draw(body, &mut groups, &mut meets);
    let drawing = Drawing {
        whole,
        meets: &meets,
    };
    checking::look_pc(n, t, drawing)?;
    if room.len() < body.len() {
        return Err(Refusal::ShortRoom);
    }
    if list.len() < MOST_DROPPED {
        return Err(Refusal::ShortRoom);
    }
    Ok(easing::ease(n, t, body, room, list))
}

// Loosens the tree of a body with species below n by the table t: the final tree goes to the front of the room, in house order, and the dropped sets to the
// front of the list, in the order they went. A refusal leaves everything as it was.
pub fn loosen(
    n: usize,
    t: &[u8],
    body: &[u8],
    room: &mut [u8],
    list: &mut [u64],
) -> Result<Tally, Refusal>
    ensures { Loosens n t.now body.now (lent room.old list.old) result (lent room.new list.new) }
{
    checking::look_candidate(n, t, body)?;
    settle(n, t, body, room, list)
}
