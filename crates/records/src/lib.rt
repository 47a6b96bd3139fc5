// A list of records of three numbers: the first bad one, and what the good ones put into a table, with the species that they name.
#![tactic(auto)]

ghost use Rattle.std.specs.Prelude.{◌≡◌, false, List, [], ◌∷◌, None, ℕ, ◌<◌, ◌≤◌, length, map};
ghost use Rattle.sets.specs.Sets.{number, union};
ghost use Rattle.tables.specs.Bytes.{enter};
ghost use Rattle.triples.specs.Index.{C};
ghost use Rattle.records.specs.Records.{left, outer, right, bad, bad_record, bad_at, fill, in_record, occurs_in};

// What is read as three numbers: two close species, in either order, and a third one.
pub trait Record: Copy {
    ghost spelled: { Self → List ℕ };

    fn species(self) -> [u8; 3]
        ensures { result ≡ spelled self };
}

impl Record for [u8; 3] {
    ghost spelled = { λ r. r };

    fn species(self) -> [u8; 3] {
        self
    }
}

// Do three numbers repeat a species, or have one not below n?
pub fn bad(n: usize, a: usize, b: usize, c: usize) -> bool
    ensures { result ≡ bad n a b c }
{
    if a == b || a == c || b == c {
        return true;
    }
    if a >= n || b >= n || c >= n {
        return true;
    }
    false
}

// The same of a record.
fn bad_record(n: usize, r: [u8; 3]) -> bool
    ensures { result ≡ bad_record n r }
{
    bad(n, r[0] as usize, r[1] as usize, r[2] as usize)
}

// The first bad record, if there is one. It only reads.
pub fn first_bad<R: Record>(n: usize, records: &[R]) -> Option<usize>
    ensures { result ≡ bad_at n (map R.spelled records.now) }
{
    records.iter().position(|r| bad_record(n, r.species()))
}

// A set, and three species with it.
pub fn gather(s: u64, a: usize, b: usize, c: usize) -> u64
    requires { (a < 64) × (b < 64) × (c < 64) }
    ensures { result ≡ union s (number 64 (in_record (a ∷ (b ∷ (c ∷ []))))) }
{
    sets::with(sets::with(sets::with(s, a), b), c)
}

// Enters one record, which is not bad, and gathers its species.
fn put_record(table: &mut [u8], n: usize, s: u64, r: [u8; 3]) -> u64
    requires { (n ≤ 64) × (length table.old ≡ C n 3) × (bad_record n r ≡ false) }
    ensures { (result ≡ union s (number 64 (in_record r))) × (table.new ≡ enter table.old (left r) (right r) (outer r)) }
{
    let a = r[0] as usize;
    let b = r[1] as usize;
    let c = r[2] as usize;
    tables::put(table, a, b, c);
    gather(s, a, b, c)
}

// Enters all records, of which none is bad, and gathers their species.
pub fn fill<R: Record>(n: usize, s: u64, records: &[R], table: &mut [u8]) -> u64
    requires { (n ≤ 64) × (length table.old ≡ C n 3) × (bad_at n (map R.spelled records.now) ≡ None) }
    ensures { (result ≡ union s (number 64 (occurs_in (map R.spelled records.now)))) × (table.new ≡ fill (map R.spelled records.now) table.old) }
{
    let mut set = s;
    for r in records {
        set = put_record(table, n, set, r.species());
    }
    set
}
