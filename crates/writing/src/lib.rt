// Text in lent bytes: what is written stands behind what is there, as far as there is room.
#![tactic(auto, using(crate::proofs::Writing::writes))]

ghost use Rattle.std.specs.Prelude.{◌≡◌, [], ◌∷◌, ◌<◌, ◌+◌, ℕ, length, map, take};
ghost use Rattle.writing.specs.Texts.{decimal, spaced};
ghost use Rattle.writing.specs.Pages.{Page, wrote_on};

use std::marker::Model;

// The bytes of a text are the first `len` of the room.
#[derive(Drop)]
pub struct Text<'a> {
    room: &'a mut [u8],
    len: usize,
}

impl<'a> Model for Text<'a> {
    ghost use Rattle.std.specs.Prelude.{◌≤◌, length, take};
    ghost use Rattle.writing.specs.Pages.{Page};

    ghost Value = { Page };

    ghost view = { λ s. record { lent = s.room.ghost_name; room = length s.room.now; text = take s.len s.room.now } };

    ghost invariant = { λ s. s.len ≤ length s.room.now };
}

// A digit as a byte.
fn glyph(d: u64) -> u8
    requires { d < 10 }
    ensures { result ≡ 48 + d }
{
    b'0' + d as u8
}

impl<'a> Text<'a> {
    // A text with no bytes, where these are lent.
    pub fn new(room: &'a mut [u8]) -> Text<'a>
        ensures { result ≡ record { lent = room.entry.ghost_name; room = length room.old; text = [] } }
    {
        Text::behind(room, 0)
    }

    // A text that stands there already: the first `at` bytes, or all of them, where there are fewer.
    pub fn behind(room: &'a mut [u8], at: usize) -> Text<'a>
        ensures { result ≡ record { lent = room.entry.ghost_name; room = length room.old; text = take at room.old } }
    {
        let len = at.min(room.len());
        Text { room, len }
    }

    // The bytes of the text.
    pub fn as_slice(&self) -> &[u8]
        ensures { result.now ≡ self.now.text }
    {
        &self.room[..self.len]
    }

    // How many bytes the text has.
    pub fn len(&self) -> usize
        ensures { result ≡ length self.now.text }
    {
        self.len
    }

    // How many it may have.
    pub fn room(&self) -> usize
        ensures { result ≡ self.now.room }
    {
        self.room.len()
    }

    // Takes all bytes away.
    pub fn clear(&mut self)
        ensures { self.new ≡ record self.old { text = [] } }
    {
        self.len = 0;
    }

    // Writes one byte.
    pub fn push(&mut self, b: u8)
        ensures { self.new ≡ wrote_on self.old (b ∷ []) }
    {
        if self.len < self.room.len() {
            self.room[self.len] = b;
            self.len += 1;
        }
    }

    // Writes a word.
    pub fn word(&mut self, w: &[u8])
        ensures { self.new ≡ wrote_on self.old w.now }
    {
        for b in w {
            self.push(*b);
        }
    }

    // Writes a number in decimal.
    pub fn decimal(&mut self, n: u64)
        ensures { self.new ≡ wrote_on self.old (decimal n) }
    {
        if n >= 10 {
            self.decimal(n / 10);
        }
        self.push(glyph(n % 10));
    }

    // Writes a space and a number.
    pub fn spaced(&mut self, n: u64)
        ensures { self.new ≡ wrote_on self.old (32 ∷ decimal n) }
    {
        self.push(b' ');
        self.decimal(n);
    }

    // Writes numbers in decimal, each after a space.
    pub fn numbers<T: Number>(&mut self, l: &[T])
        ensures { self.new ≡ wrote_on self.old (spaced (map T.value l.now)) }
    {
        for x in l {
            self.spaced(x.number());
        }
    }
}

// A number that fits 64 bits.
pub trait Number: Copy {
    ghost value: { Self → ℕ };

    fn number(self) -> u64
        ensures { result ≡ value self };
}

impl Number for u8 {
    ghost value = { λ x. x };

    fn number(self) -> u64 {
        u64::from(self)
    }
}

impl Number for u64 {
    ghost value = { λ x. x };

    fn number(self) -> u64 {
        self
    }
}

impl Number for usize {
    ghost value = { λ x. x };

    fn number(self) -> u64 {
        self as u64
    }
}
