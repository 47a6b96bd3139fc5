// Reads a collection on standard input, builds the tree of its table, checks it, and prints what came of it.
#![tactic(auto)]

fn main() {
    let mut table = [0u8; 41664];
    shelf_run::run(&mut table);
}
