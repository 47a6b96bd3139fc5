// Reads papers on standard input, and prints what they let be pulled together: what `pull_text` writes of them.
#![tactic(auto)]

ghost use Rattle.pull.specs.Runs.{ShownText};

// Prints the text. Who calls this has to show what it is: what `pull` prints of the n bytes that came.
fn print(bytes: &[u8], n: usize, text: &[u8])
    requires { ShownText bytes.now n text.now }
{
    io::write_all(1, text);
}

fn main() {
    let mut bytes = [0u8; papers::MOST_BYTES + 1];
    let n = io::read_full(0, &mut bytes);
    let mut store = [0u8; collections::LONGEST];
    let mut table = [0u8; 41664];
    let mut lent = [0u8; pull_text::MOST_TEXT];
    let mut text = writing::Text::new(&mut lent);
    pull_text::pull(&bytes[..n], &mut store, &mut table, &mut text);
    print(&bytes, n, text.as_slice());
}
