// The program `shelf` once more, for a run of its own: the longest good collection, 4,099 bytes, of 16 trees of 127 nodes on 64 species. It has to be read whole.
#![tactic(auto)]

fn main() {
    let mut table = [0u8; 41664];
    shelf_run::run(&mut table);
}
