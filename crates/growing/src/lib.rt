// The recursive build of one set of species into a draft: the plain build and the veto build.
#![tactic(auto)]

ghost use Rattle.std.specs.Prelude.{◌≡◌, true, ◌+◌, ◌*◌, ◌<◌, ◌≤◌, length};
ghost use Rattle.sets.specs.Sets.{has, size};
ghost use Rattle.trees.specs.Build.{build_by, ending};
ghost use Rattle.trees.specs.Visits.{looked};
ghost use Rattle.tables.specs.Bytes.{entered};
ghost use Rattle.bodies.specs.Nodes.{most_nodes, longest};
ghost use Rattle.growing.specs.Grows.{Grows, Stands, vetoes};
ghost use Rattle.growing.specs.Waiting.{SameFrom};

// What is done with a set whose links join it all: the plain build stops there, and the veto build spreads it.
#[derive(Clone, Copy)]
pub enum Build {
    Plain,
    Veto,
}

// The next node's number, or the set that stops; and how many triples were looked at.
#[derive(Clone, Copy)]
pub struct Grown {
    pub end: Result<usize, u64>,
    pub looked: usize,
}

// Writes a node under `parent`, as node `at`, and behind it every species of the set as a leaf under that node, from the lowest up. The next node's number.
fn spread(s: u64, room: &mut [u8], at: usize, parent: u8) -> usize
    requires { (1 < size s) × (at + 2 * size s ≤ most_nodes + 1) × (length room.old ≡ longest) }
    ensures { Stands (ending true 64 (has s)) (size s) parent at room.old room.new result }
{
    bodies::put_inner(room, at, parent);
    let mut next = at + 1;
    for i in sets::species(s) {
        bodies::put_leaf(room, next, at as u8, i as u8);
        next += 1;
    }
    next
}

// Builds a set that is not empty under `parent`, as node `at`. What waits to be built after it stands in `waiting` from place `free` on, and stays; before
// that there is a place for each of its species, so that its parts have room. The triples looked at are those of the set itself, and then those of its parts,
// no further than the first that stops.
pub fn grow(
    build: Build,
    t: &[u8],
    s: u64,
    waiting: &mut [u64; 64],
    free: usize,
    room: &mut [u8],
    at: usize,
    parent: u8,
) -> Grown
    requires { (0 < size s) × (size s ≤ free) × (free ≤ 64) × (length waiting.old ≡ 64) × (at + 2 * size s ≤ most_nodes + 1) × (length room.old ≡ longest) }
    ensures same_from { SameFrom free waiting.old waiting.new }
    ensures room_len { length room.new ≡ longest }
    ensures grows { Grows (build_by (vetoes build) (entered t.now) 64 (has s)) (size s) parent at room.old room.new result.end }
    ensures looked_value { result.looked ≡ looked (vetoes build) (entered t.now) 64 (has s) }
{
    if sets::size(s) == 1 {
        bodies::put_leaf(room, at, parent, sets::lowest(s) as u8);
        return Grown {
            end: Ok(at + 1),
            looked: 0,
        };
    }
    let splitting::Parted { count, mut looked } = splitting::split(t, s, waiting);
    if count == 1 {
        let end = match build {
            Build::Plain => Err(s),
            Build::Veto => Ok(spread(s, room, at, parent)),
        };
        return Grown { end, looked };
    }
    bodies::put_inner(room, at, parent);
    // The parts go to the places before those that wait.
    let gap = free - count;
    waiting.copy_within(..count, gap);
    let mut next = at + 1;
    for k in gap..free {
        let grown = grow(build, t, waiting[k], waiting, k + 1, room, next, at as u8);
        looked += grown.looked;
        match grown.end {
            Ok(m) => next = m,
            Err(_) => return Grown { looked, ..grown },
        }
    }
    Grown {
        end: Ok(next),
        looked,
    }
}
