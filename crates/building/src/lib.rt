// Building the tree of a set of species that holds every entered triplet, or the set that shows why there is none; and the veto build, which always gives a tree.
#![tactic(auto)]

ghost use Rattle.std.specs.Prelude.{[], ◌<◌, ◌≤◌, length};
ghost use Rattle.sets.specs.Sets.{has, size};
ghost use Rattle.trees.specs.Build.{build_by};
ghost use Rattle.trees.specs.Visits.{looked};
ghost use Rattle.tables.specs.Bytes.{entered};
ghost use Rattle.bodies.specs.Nodes.{room_for};
ghost use Rattle.growing.specs.Grows.{vetoes};
ghost use Rattle.admitting.specs.GoodSet.{input_looks};
ghost use Rattle.building.specs.Builds.{Raises, Builds, looked_by, outcome_by};
ghost use Rattle.building.specs.Vetoes.{Vetoes};

use answers::Written;
use growing::Build;
use refusals::Refusal;

// An answer, and beside it how many triples were looked at: 0 for every refusal but that of a set that stops.
#[derive(Clone, Copy)]
pub struct Counted {
    pub answer: Result<Written, Refusal>,
    pub looked: usize,
}

// Builds any set that is not empty, by either build: into a room of its own first, since a refusal must leave the lent one as it was.
fn raise(build: Build, t: &[u8], s: u64, room: &mut [u8]) -> Counted
    requires { (0 < size s) × (room_for (size s) ≤ length room.old) }
    ensures { Raises (looked (vetoes build) (entered t.now) 64 (has s)) (build_by (vetoes build) (entered t.now) 64 (has s)) [] room.old result room.new }
{
    let mut draft = [0; bodies::LONGEST];
    let mut waiting = [0; 64];
    let growing::Grown { end, looked } = growing::grow(
        build,
        t,
        s,
        &mut waiting,
        64,
        &mut draft,
        0,
        bodies::NONE,
    );
    let answer = match end {
        Ok(nodes) => {
            bodies::copy(&draft, nodes, room);
            Ok(Written { nodes })
        }
        Err(u) => Err(Refusal::NoTree(u)),
    };
    Counted { answer, looked }
}

// Builds a set of species, of a table of n species, to the front of the room, by either build. A refusal leaves every byte as it was.
fn build_as(build: Build, n: usize, set: u64, t: &[u8], room: &mut [u8]) -> Counted
    ensures { Raises (looked_by (vetoes build) n set t.now) (outcome_by (vetoes build) n set t.now) (input_looks n set t.now (length room.old)) room.old result room.new }
{
    match admitting::look_input(n, set, t, room.len()) {
        Ok(()) => raise(build, t, set, room),
        Err(x) => Counted {
            answer: Err(x),
            looked: 0,
        },
    }
}

// Builds the tree of a set of species, of a table of n species, to the front of the room. A refusal leaves every byte as it was.
pub fn build(n: usize, set: u64, t: &[u8], room: &mut [u8]) -> Counted
    ensures { Builds n set t.now room.old result room.new }
{
    build_as(Build::Plain, n, set, t, room)
}

// The veto build of a set of species, of a table of n species, to the front of the room: always a tree. A refusal leaves every byte as it was.
pub fn veto(n: usize, set: u64, t: &[u8], room: &mut [u8]) -> Counted
    ensures { Vetoes n set t.now room.old result room.new }
{
    build_as(Build::Veto, n, set, t, room)
}
