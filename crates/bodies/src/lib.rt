// The bytes of a tree's body: its nodes, what a broken rule is told as, and writing nodes.
#![tactic(auto)]

ghost use Rattle.std.specs.Prelude.{◌≡◌, suc, ◌*◌, ◌<◌, ◌≤◌, length, take};
ghost use Rattle.std.proofs.lemmas.List.Edits.{sets};
ghost use Rattle.bodies.specs.Nodes.{nodes, node_at', width, most_nodes, body_length, bad_length, room_for, leaf_bytes, inner_bytes, under_bytes};
ghost use Rattle.bodies.specs.Draws.{written};

// The bytes of a node: its parent, then its species.
const WIDTH: usize = 2;

// The most nodes that a body has, and the most bytes.
pub const MOST_NODES: usize = 127;

pub const LONGEST: usize = WIDTH * MOST_NODES;

// The root's parent, and the species of a node with children.
pub const NONE: u8 = 255;

// A node of a body, wherever its bytes stand.
#[derive(Clone, Copy)]
pub struct Node {
    pub parent: u8,
    pub species: u8,
}

// The rule that a node breaks, with what document 01 returns of it.
#[derive(Clone, Copy)]
pub enum Fault {
    BadParent(u8),
    BadSpecies(u8),
    SeenBefore(usize),
    OnlyChild,
}

// The first rule that is broken: in which tree, at which node, and which one.
#[derive(Clone, Copy)]
pub struct Broken {
    pub tree: usize,
    pub node: usize,
    pub fault: Fault,
}

// Is the length 0, odd or over 254?
pub fn bad_length(l: usize) -> bool
    ensures { result ≡ bad_length l }
{
    l == 0 || l % WIDTH != 0 || l > LONGEST
}

// The length of a body of k nodes.
pub fn body_length(k: usize) -> usize
    requires { k ≤ most_nodes }
    ensures { result ≡ body_length k }
{
    WIDTH * k
}

// The length that holds the body of any tree of s species.
pub fn room(s: usize) -> usize
    requires { (0 < s) × (s ≤ 64) }
    ensures { result ≡ room_for s }
{
    WIDTH * (2 * s - 1)
}

pub fn node_count(body: &[u8]) -> usize
    ensures { result ≡ (nodes body.now).count }
{
    body.len() / WIDTH
}

pub fn parent(body: &[u8], i: usize) -> u8
    requires { i < (nodes body.now).count }
    ensures { result ≡ (nodes body.now).parent i }
{
    body[WIDTH * i]
}

pub fn species(body: &[u8], i: usize) -> u8
    requires { i < (nodes body.now).count }
    ensures { result ≡ (nodes body.now).species i }
{
    body[WIDTH * i + 1]
}

// Node i, with all that is said of it.
pub fn node_at(body: &[u8], i: usize) -> Node
    requires { i < (nodes body.now).count }
    ensures { result ≡ node_at' (nodes body.now) i }
{
    Node {
        parent: body[WIDTH * i],
        species: body[WIDTH * i + 1],
    }
}

// Writes node v as node `at`, under another parent: the one function that knows where the bytes of a node go.
pub fn put_under(room: &mut [u8], at: usize, parent: u8, v: Node)
    requires { body_length (suc at) ≤ length room.old }
    ensures { room.new ≡ sets room.old (width * at) (under_bytes parent v) }
{
    room[WIDTH * at] = parent;
    room[WIDTH * at + 1] = v.species;
}

// Writes node `at`, a leaf.
pub fn put_leaf(room: &mut [u8], at: usize, parent: u8, species: u8)
    requires { body_length (suc at) ≤ length room.old }
    ensures { room.new ≡ sets room.old (width * at) (leaf_bytes parent species) }
{
    put_under(room, at, parent, Node { parent, species });
}

// Writes node `at`, which has children.
pub fn put_inner(room: &mut [u8], at: usize, parent: u8)
    requires { body_length (suc at) ≤ length room.old }
    ensures { room.new ≡ sets room.old (width * at) (inner_bytes parent) }
{
    let v = Node {
        parent,
        species: NONE,
    };
    put_under(room, at, parent, v);
}

// Lays the first k nodes of a body over the front of room.
pub fn copy(body: &[u8], k: usize, room: &mut [u8])
    requires { (body_length k ≤ length body.now) × (body_length k ≤ length room.old) }
    ensures { room.new ≡ written room.old (take (body_length k) body.now) }
{
    let end = WIDTH * k;
    room[..end].copy_from_slice(&body[..end]);
}
