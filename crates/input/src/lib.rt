// What has come of standard input, byte after byte.
#![tactic(auto)]

ghost use Rattle.std.specs.Prelude.{◌≡◌, ◌<◌, [], ◌∷◌, ◌≤◌, length, true, false, MatchOption};

use std::io::{Read, Stdin};

// The bytes of the lent buffer from `at` up to `end` are still to be read, and then what is still to come. `whole` says that all that was asked for was there;
// once it was not, nothing more is read.
#[derive(Drop)]
pub struct Reader<'a> {
    pub stdin: Stdin,
    pub buffer: &'a mut [u8],
    pub at: usize,
    pub end: usize,
    pub whole: bool,
    ghost in_buffer: { (at ≤ end) × (end ≤ length buffer.now) },
}

impl<'a> Reader<'a> {
    ghost use Rattle.input.specs.Inputs.{SameBuffer, Took, buffered, whole};

    // Before anything was read.
    pub fn new(stdin: Stdin, buffer: &'a mut [u8]) -> Reader<'a>
        ensures buffered { buffered result ≡ [] }
        ensures whole { whole result ≡ true }
        ensures lent { (result.buffer.ghost_name ≡ buffer.entry.ghost_name) × (result.buffer.now ≡ buffer.old) }
    {
        Reader {
            stdin,
            buffer,
            at: 0,
            end: 0,
            whole: true,
        }
    }

    // Where something that was asked for was not there.
    pub fn cut(&mut self)
        ensures cut { (self.new.at ≡ 0) × (self.new.end ≡ 0) × (whole self.new ≡ false) }
        ensures lent { SameBuffer self.old self.new }
    {
        self.at = 0;
        self.end = 0;
        self.whole = false;
    }

    // Reads what has come of the input, and waits only where nothing has: whether anything stands in the buffer then. Where something was not there, nothing is read.
    fn refill(&mut self) -> Option<()>
        ensures refilled { MatchOption result (whole self.new ≡ false) (λ _. (self.new.at ≡ 0) × (0 < self.new.end) × (whole self.old ≡ true) × (whole self.new ≡ true)) }
        ensures lent { SameBuffer self.old self.new }
    {
        let whole = self.whole;
        self.cut();
        if !whole {
            return None;
        }
        let end = self.stdin.read(self.buffer).ok()?;
        if end == 0 {
            return None;
        }
        self.end = end;
        self.whole = true;
        Some(())
    }

    // Reads a byte; where the buffer is used up, it is read anew. There is none where, with it used up, the input has ended or something was not there before.
    pub fn byte(&mut self) -> Option<u8>
        ensures took { MatchOption result ((buffered self.old ≡ []) × (whole self.new ≡ false)) (λ x. Took self.old (x ∷ []) self.new) }
        ensures lent { SameBuffer self.old self.new }
    {
        if self.at == self.end {
            self.refill()?;
        }
        let value = self.buffer[self.at];
        self.at += 1;
        Some(value)
    }

    // Reads as many bytes as `to` has.
    pub fn fill(&mut self, to: &mut [u8]) -> Option<()>
        ensures took { MatchOption result (whole self.new ≡ false) (λ _. Took self.old to.new self.new) }
        ensures lent { SameBuffer self.old self.new }
    {
        for slot in to.iter_mut() {
            *slot = self.byte()?;
        }
        Some(())
    }
}

#[cfg(test)]
mod tests;
