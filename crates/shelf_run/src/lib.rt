// What the program `shelf` does: it reads standard input, and prints what `shelf_text` writes of it.
#![tactic(auto)]

ghost use Rattle.std.specs.Prelude.{◌≡◌, length};
ghost use Rattle.shelf_run.specs.Runs.{ShownText};

// Prints the text. Who calls this has to show what it is: what `shelf` prints of the n bytes that came.
fn print(bytes: &[u8], n: usize, text: &[u8])
    requires { ShownText bytes.now n text.now }
{
    io::write_all(1, text);
}

// Reads a collection on standard input, builds the tree of its table, checks it, and prints what came of it. The table is lent for work.
pub fn run(table: &mut [u8; 41664])
    requires { length table.old ≡ 41664 }
{
    let mut bytes = [0u8; collections::LONGEST + 1];
    let n = io::read_full(0, &mut bytes);
    let mut lent = [0u8; 8192];
    let mut text = writing::Text::new(&mut lent);
    shelf_text::shelf(&bytes[..n], table, &mut text);
    print(&bytes, n, text.as_slice());
}
