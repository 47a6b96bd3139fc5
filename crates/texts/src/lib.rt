// The texts of an input, one after the other: where one ends, and where blanks only are left.
#![tactic(auto)]

ghost use Rattle.std.specs.Prelude.{◌≡◌, ◌+◌, ◌≤◌, drop, length};
ghost use Rattle.texts.specs.Texts.{all_blank, span};

// Are there blanks only from `at` on?
pub fn blanks_only(input: &[u8], at: usize) -> bool
    requires { at ≤ length input.now }
    ensures { result ≡ all_blank (drop at input.now) }
{
    input[at..].iter().all(|b| numerals::blank(*b))
}

// The end of the text that begins at `at`: behind its semicolon.
pub fn text_end(input: &[u8], at: usize) -> usize
    requires { at ≤ length input.now }
    ensures { (result ≡ at + span (drop at input.now)) × (result ≤ length input.now) }
{
    match input[at..].iter().position(|b| *b == b';') {
        Some(k) => at + k + 1,
        None => input.len(),
    }
}
