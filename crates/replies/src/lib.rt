// Each operation's answer as a reply.
#![tactic(auto)]

ghost use Rattle.std.specs.Prelude.{[]};
ghost use Rattle.refusals.specs.Told.{Told, told};
ghost use Rattle.refusals.specs.Refusals.{told_by};
ghost use Rattle.refusals.specs.Replies.{Replies};
ghost use Rattle.answers.specs.Looks.{written_told};
ghost use Rattle.collections.specs.Reads.{count_values};
ghost use Rattle.entering.specs.Enters.{entry_values};
ghost use Rattle.rendering.specs.Renders.{text_told};
ghost use Rattle.loosening.specs.Loosens.{tally_values};
ghost use Rattle.building.specs.Builds.{build_told};

use answers::Written;
use building::Counted;
use collections::Counts;
use easing::Tally;
use entering::Entry;
use refusals::{Refusal, Reply};
use rendering::Text;

// What 0 returns, with the numbers that document 01 lists for it.
pub trait Returned {
    ghost returned: { Self → Told };

    fn reply(self) -> Reply
        ensures { Replies (returned self) result };
}

// Reading, and listing.
impl Returned for Counts {
    ghost returned = { λ c. told 0 (count_values c) };

    fn reply(self) -> Reply {
        Reply::told(0, &[self.n, self.trees, self.set as usize])
    }
}

// Entering.
impl Returned for Entry {
    ghost returned = { λ e. told 0 (entry_values e) };

    fn reply(self) -> Reply {
        Reply::told(0, &[self.n, self.set as usize])
    }
}

// House order, reading a Newick text, and building without the triples looked at.
impl Returned for Written {
    ghost returned = { written_told };

    fn reply(self) -> Reply {
        Reply::told(0, &[self.nodes])
    }
}

// Writing a Newick text.
impl Returned for Text {
    ghost returned = { text_told };

    fn reply(self) -> Reply {
        Reply::told(0, &[self.length])
    }
}

// The check.
impl Returned for () {
    ghost returned = { λ u. told 0 [] };

    fn reply(self) -> Reply {
        Reply::told(0, &[])
    }
}

// Loosening.
impl Returned for Tally {
    ghost returned = { λ w. told 0 (tally_values w) };

    fn reply(self) -> Reply {
        Reply::told(0, &[self.nodes, self.dropped])
    }
}

// The reply to an answer.
pub fn answer<T: Returned>(a: Result<T, Refusal>) -> Reply
    ensures { Replies (told_by T.returned a) result }
{
    match a {
        Ok(x) => x.reply(),
        Err(x) => Reply::from(x),
    }
}

// The reply to an answer of building, with the triples looked at.
pub fn build(a: Counted) -> Reply
    ensures { Replies (build_told a) result }
{
    answer(a.answer).further(a.looked)
}
