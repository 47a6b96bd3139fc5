// Entering a list of triplets into a table: refusals 2, 7 and 13, in that order, before any byte is written.
#![tactic(auto)]

ghost use Rattle.std.specs.Prelude.{map};
ghost use Rattle.entering.specs.Enters.{Enters};

use records::Record;
use refusals::Refusal;

// What is returned with 0: of the species, the set that occurs.
#[derive(Clone, Copy)]
pub struct Entry {
    pub n: usize,
    pub set: u64,
}

// Enters what is read as records into an empty table: whatever the table held is gone. All is looked at before any byte is written, and a refusal leaves
// every byte as it was.
pub fn enter_all<R: Record>(n: usize, records: &[R], table: &mut [u8]) -> Result<Entry, Refusal>
    ensures { Enters n (map R.spelled records.now) table.old result table.new }
{
    answers::look_count(n)?;
    if !tables::fits(table, n) {
        return Err(Refusal::BadTable);
    }
    if let Some(k) = records::first_bad(n, records) {
        return Err(Refusal::BadRecord(k));
    }
    tables::clear(table);
    let set = records::fill(n, 0, records, table);
    Ok(Entry { n, set })
}

// Enters records of three numbers.
pub fn enter(n: usize, records: &[[u8; 3]], table: &mut [u8]) -> Result<Entry, Refusal>
    ensures { Enters n records.now table.old result table.new }
{
    enter_all(n, records, table)
}
