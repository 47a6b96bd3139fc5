// The program `shelf` once more, for a run of its own: the longest good collection and one byte more, 4,100 bytes. The last one has to be seen, and is left over.
#![tactic(auto)]

fn main() {
    let mut table = [0u8; 41664];
    shelf_run::run(&mut table);
}
