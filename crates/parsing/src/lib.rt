// Newick text into a body, in the text's order.
#![tactic(auto)]

ghost use Rattle.std.specs.Prelude.{◌≡◌, length};
ghost use Rattle.bodies.specs.Nodes.{body_length};
ghost use Rattle.parsing.specs.Parses.{Parses, Puts};

use answers::Written;
use refusals::Refusal;

// The longest text.
const LONGEST: usize = 4096;

// Judges a body that was read, and lays it over the front of the room where it breaks no rule.
fn put_body(n: usize, body: &[u8], nodes: usize, room: &mut [u8]) -> Result<Written, Refusal>
    requires { length body.now ≡ body_length nodes }
    ensures { Puts n body.now room.old result room.new }
{
    rules::first_fault(0, n, body)?;
    if room.len() < body.len() {
        return Err(Refusal::ShortRoom);
    }
    bodies::copy(body, nodes, room);
    Ok(Written { nodes })
}

// Reads a Newick text of a tree with n species at most into a body, at the front of the room. A refusal leaves every byte as it was.
pub fn parse(n: usize, text: &[u8], room: &mut [u8]) -> Result<Written, Refusal>
    ensures { Parses n text.now room.old result room.new }
{
    answers::look_count(n)?;
    if text.len() > LONGEST {
        return Err(Refusal::BadText(LONGEST));
    }
    let mut draft = [0; bodies::LONGEST];
    let got = subtrees::whole(text, &mut draft)?;
    let end = bodies::body_length(got.nodes);
    put_body(n, &draft[..end], got.nodes, room)
}
