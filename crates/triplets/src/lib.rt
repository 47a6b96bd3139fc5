// The named form of entering: a lent list of triplets by name, each read as the record of its three species.
#![tactic(auto)]

ghost use Rattle.std.specs.Prelude.{map};
ghost use Rattle.entering.specs.Enters.{Enters};
ghost use Rattle.triplets.specs.Spelled.{spelled};

use entering::Entry;
use records::Record;
use refusals::Refusal;

// A triplet by its species: ab|c. C has it as three bytes.
#[repr(C)]
#[derive(Clone, Copy)]
pub struct Triplet {
    pub a: u8,
    pub b: u8,
    pub c: u8,
}

impl Record for Triplet {
    ghost spelled = { spelled };

    fn species(self) -> [u8; 3] {
        [self.a, self.b, self.c]
    }
}

// Enters the triplets into an empty table, as `entering::enter` does records.
pub fn enter(n: usize, records: &[Triplet], table: &mut [u8]) -> Result<Entry, Refusal>
    ensures { Enters n (map spelled records.now) table.old result table.new }
{
    entering::enter_all(n, records, table)
}
