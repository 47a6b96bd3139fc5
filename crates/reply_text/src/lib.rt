// The text of a reply, and behind it that of what was lent: bytes of a table or a room, or a room and a list of sets.
#![tactic(auto, using(writing::proofs::Writing::writes))]

ghost use Rattle.std.specs.Prelude.{◌≡◌, ◌∷◌, ◌++◌, map};
ghost use Rattle.writing.specs.Pages.{wrote_on};
ghost use Rattle.writing.specs.Texts.{decimal, ended};
ghost use Rattle.reply_text.specs.Text.{rule_text, reply_text, barred};

use bodies::Fault;
use refusals::Reply;
use writing::{Number, Text};

// Writes the word of a fault, and its own data.
fn put_fault(out: &mut Text, word: &[u8], x: usize)
    ensures { out.new ≡ wrote_on out.old (word.now ++ (32 ∷ decimal x)) }
{
    out.word(word);
    out.spaced(x as u64);
}

// Writes which rule is broken, and nothing where none is.
fn put_rule(out: &mut Text, rule: Option<Fault>)
    ensures { out.new ≡ wrote_on out.old (rule_text rule) }
{
    match rule {
        None => {}
        Some(Fault::BadParent(p)) => put_fault(out, b" parent", p as usize),
        Some(Fault::BadSpecies(s)) => put_fault(out, b" species", s as usize),
        Some(Fault::SeenBefore(i)) => put_fault(out, b" seen", i),
        Some(Fault::OnlyChild) => out.word(b" only"),
    }
}

// Writes a reply.
fn put_reply(out: &mut Text, s: Reply)
    ensures { out.new ≡ wrote_on out.old (reply_text s) }
{
    out.decimal(s.number as u64);
    out.numbers(s.values.as_slice());
    put_rule(out, s.rule);
}

// Writes a line that ends after the answer.
pub fn put_line(out: &mut Text, s: Reply)
    ensures { out.new ≡ wrote_on out.old (ended (reply_text s)) }
{
    put_reply(out, s);
    out.push(b'\n');
}

// Writes a bar, and numbers behind it.
fn put_list<T: Number>(out: &mut Text, l: &[T])
    ensures { out.new ≡ wrote_on out.old (barred (map T.value l.now)) }
{
    out.word(b" |");
    out.numbers(l);
}

// Writes an answer, and the bytes of a table or a room behind it.
fn put_lent(out: &mut Text, s: Reply, l: &[u8])
    ensures { out.new ≡ wrote_on out.old (reply_text s ++ barred l.now) }
{
    put_reply(out, s);
    put_list(out, l);
}

// Writes a line with the bytes of a table or a room behind the answer.
pub fn put_barred(out: &mut Text, s: Reply, l: &[u8])
    ensures { out.new ≡ wrote_on out.old (ended (reply_text s ++ barred l.now)) }
{
    put_lent(out, s, l);
    out.push(b'\n');
}

// Writes a line with the bytes of a room and then the sets of a list behind the answer.
pub fn put_both(out: &mut Text, s: Reply, l: &[u8], sets: &[u64])
    ensures { out.new ≡ wrote_on out.old (ended (reply_text s ++ (barred l.now ++ barred sets.now))) }
{
    put_lent(out, s, l);
    put_list(out, sets);
    out.push(b'\n');
}
