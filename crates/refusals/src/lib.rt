// The refusals of document 01's table, and a reply: a number, the values returned with it, and the rule that is broken. That of each refusal, and one value more behind a reply.
#![tactic(auto)]

ghost use Rattle.std.specs.Prelude.{◌≡◌, [], ◌∷◌, ◌++◌, ◌≤◌, None, length, take};
ghost use Rattle.refusals.specs.Refusals.{refusal_told};
ghost use Rattle.refusals.specs.Replies.{Further, Replies};

use std::marker::Model;

// Where an entered triplet differs from the tree: the triple's index, and its byte in the table.
#[derive(Clone, Copy)]
pub struct Contradiction {
    pub index: usize,
    pub byte: u8,
}

// Document 01's table, a case for each number.
#[derive(Clone, Copy)]
pub enum Refusal {
    BadVersion,
    BadCounts,
    EndsEarly(usize),
    LeftOver(usize),
    BadLength(usize),
    BadTree(bodies::Broken),
    BadTable,
    BadByte(usize),
    ShortRoom,
    NoTree(u64),
    Contradicted(Contradiction),
    Unforced(usize),
    BadRecord(usize),
    BadText(usize),
    BadSet,
    Outside(usize),
}

impl From<bodies::Broken> for Refusal {
    ghost use Rattle.refusals.specs.declared.Refusal.TheVariants.{BadTree};

    ghost from_gives = { λ b x. x ≡ BadTree b };

    fn from(b: bodies::Broken) -> Refusal {
        Refusal::BadTree(b)
    }
}

// Up to four numbers, one after the other, and zeros behind them.
#[derive(Clone, Copy)]
pub struct Values {
    held: [usize; 4],
    count: usize,
}

impl Model for Values {
    ghost use Rattle.std.specs.Prelude.{ℕ, List, length, take};
    ghost use Rattle.refusals.specs.Held.{Holds, with_zeros};

    ghost Value = { List ℕ };

    ghost view = { λ v. take v.count v.held };

    ghost invariant = { λ v. Holds v.held v.count };

    ghost inverse = { λ l. record { held = with_zeros l; count = length l } };

    ghost inverse_ok = { λ v h i. record { held = h.whole i; count = h.long i } };
}

impl Values {
    pub fn of(l: &[usize]) -> Values
        requires { length l.now ≤ 4 }
        ensures { result ≡ l.now }
    {
        let mut held = [0; 4];
        held[..l.len()].copy_from_slice(l);
        Values {
            held,
            count: l.len(),
        }
    }

    // Puts x behind them, where there is room for it.
    pub fn push(&mut self, x: usize)
        ensures { self.new ≡ take 4 (self.old ++ x ∷ []) }
    {
        if self.count < 4 {
            self.held[self.count] = x;
            self.count += 1;
        }
    }

    pub fn as_slice(&self) -> &[usize]
        ensures value { result.now ≡ self.now }
        ensures few { length result.now ≤ 4 }
    {
        &self.held[..self.count]
    }
}

// A number, the values that are returned with it, and the rule that is broken, if one is.
#[derive(Clone, Copy)]
pub struct Reply {
    pub number: usize,
    pub values: Values,
    pub rule: Option<bodies::Fault>,
}

impl Reply {
    // The reply of a number and values alone.
    pub fn told(number: usize, values: &[usize]) -> Reply
        requires { length values.now ≤ 4 }
        ensures { result ≡ record { number = number; values = values.now; rule = None } }
    {
        Reply {
            number,
            values: Values::of(values),
            rule: None,
        }
    }

    // The same with c behind its values, where there is room for it.
    pub fn further(self, c: usize) -> Reply
        ensures { Further self c result }
    {
        let Reply {
            number,
            mut values,
            rule,
        } = self;
        values.push(c);
        Reply {
            number,
            values,
            rule,
        }
    }
}

impl From<Refusal> for Reply {
    ghost from_gives = { λ x r. Replies (refusal_told x) r };

    fn from(x: Refusal) -> Reply {
        match x {
            Refusal::BadVersion => Reply::told(1, &[]),
            Refusal::BadCounts => Reply::told(2, &[]),
            Refusal::EndsEarly(k) => Reply::told(3, &[k]),
            Refusal::LeftOver(m) => Reply::told(4, &[m]),
            Refusal::BadLength(k) => Reply::told(5, &[k]),
            Refusal::BadTree(b) => Reply {
                number: 6,
                values: Values::of(&[b.tree, b.node]),
                rule: Some(b.fault),
            },
            Refusal::BadTable => Reply::told(7, &[]),
            Refusal::BadByte(i) => Reply::told(8, &[i]),
            Refusal::ShortRoom => Reply::told(9, &[]),
            Refusal::NoTree(u) => Reply::told(10, &[u as usize]),
            Refusal::Contradicted(c) => Reply::told(11, &[c.index, c.byte as usize]),
            Refusal::Unforced(i) => Reply::told(12, &[i]),
            Refusal::BadRecord(i) => Reply::told(13, &[i]),
            Refusal::BadText(p) => Reply::told(14, &[p]),
            Refusal::BadSet => Reply::told(15, &[]),
            Refusal::Outside(i) => Reply::told(16, &[i]),
        }
    }
}
