// The rules of a tree's body, and the first that is broken.
#![tactic(auto)]

ghost use Rattle.std.specs.Prelude.{◌≡◌, ◌<◌, length, MatchOption};
ghost use Rattle.bodies.specs.Nodes.{nodes, children};
ghost use Rattle.rules.specs.Faults.{right_parent, right_species, earlier, parent_fault, node_fault, fault};

use bodies::{Broken, Fault};

// How many children node i has.
fn kids(body: &[u8], i: usize) -> usize
    ensures { result ≡ length (children (nodes body.now) i) }
{
    let mut k = 0;
    for j in 1..bodies::node_count(body) {
        if usize::from(bodies::parent(body, j)) == i {
            k += 1;
        }
    }
    k
}

// The first leaf before node i with species s, where node i has no children (m is 0).
fn earlier(body: &[u8], s: u8, m: usize, i: usize) -> Option<usize>
    requires { i < (nodes body.now).count }
    ensures { MatchOption result (earlier (nodes body.now) s m i ≡ i) (λ j. (j ≡ earlier (nodes body.now) s m i) × (j < i)) }
{
    if m != 0 {
        return None;
    }
    for j in 0..i {
        if bodies::species(body, j) == s && kids(body, j) == 0 {
            return Some(j);
        }
    }
    None
}

// Is node i's parent right?
fn right_parent(body: &[u8], i: usize) -> bool
    requires { i < (nodes body.now).count }
    ensures { result ≡ right_parent (nodes body.now) i }
{
    let p = bodies::parent(body, i);
    if i == 0 {
        p == bodies::NONE
    } else {
        usize::from(p) < i
    }
}

fn parent_fault(k: usize, body: &[u8], i: usize) -> Result<(), Broken>
    requires { i < (nodes body.now).count }
    ensures { result ≡ parent_fault k (nodes body.now) i }
{
    if right_parent(body, i) {
        return Ok(());
    }
    Err(Broken {
        tree: k,
        node: i,
        fault: Fault::BadParent(bodies::parent(body, i)),
    })
}

// Is s right as the species of a node with m children?
fn right_species(n: usize, s: u8, m: usize) -> bool
    ensures { result ≡ right_species n s m }
{
    if m == 0 {
        usize::from(s) < n
    } else {
        s == bodies::NONE
    }
}

// The rules of node i but for its parent's, in their order.
fn node_fault(k: usize, n: usize, body: &[u8], i: usize) -> Result<(), Broken>
    requires { i < (nodes body.now).count }
    ensures { result ≡ node_fault k (nodes body.now) n i }
{
    let s = bodies::species(body, i);
    let m = kids(body, i);
    if !right_species(n, s, m) {
        return Err(Broken {
            tree: k,
            node: i,
            fault: Fault::BadSpecies(s),
        });
    }
    if let Some(j) = earlier(body, s, m, i) {
        return Err(Broken {
            tree: k,
            node: i,
            fault: Fault::SeenBefore(j),
        });
    }
    if m == 1 {
        return Err(Broken {
            tree: k,
            node: i,
            fault: Fault::OnlyChild,
        });
    }
    Ok(())
}

// The first rule that the nodes of tree k break, with n species: the parents of all nodes first, then node by node.
pub fn first_fault(k: usize, n: usize, body: &[u8]) -> Result<(), Broken>
    ensures { result ≡ fault k (nodes body.now) n }
{
    let count = bodies::node_count(body);
    for i in 0..count {
        parent_fault(k, body, i)?;
    }
    for i in 0..count {
        node_fault(k, n, body, i)?;
    }
    Ok(())
}
