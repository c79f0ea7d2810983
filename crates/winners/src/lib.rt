// A winner tree: leaves of any numbers, and inner nodes each the greater of its children, so that the root is the greatest of all.
#![tactic(auto)]

ghost use Rattle.std.specs.Prelude.{◌≡◌, ◌+◌, ◌*◌, ◌%◌, ◌≤◌, ◌<◌, max, length, get_or};
ghost use Rattle.winners.specs.Tree.{Nodes, Grown, Changed};

// Makes the inner nodes of a tree with p leaves.
pub fn join_nodes(tree: &mut [u64], p: usize)
    requires { (1 ≤ p) × (2 * p ≤ length tree.old) }
    ensures { Grown p tree.old tree.new }
{
    for i in (1..p).rev() {
        tree[i] = tree[2 * i].max(tree[2 * i + 1]);
    }
}

// The other child of the node above i.
fn sibling(i: usize) -> usize
    ensures { result + 2 * (i % 2) ≡ i + 1 }
{
    i ^ 1
}

// Leaf k becomes v; the nodes above it are made anew, the greatest carried up.
pub fn replace(tree: &mut [u64], p: usize, k: usize, v: u64)
    requires { Nodes p tree.old × (k < p) }
    ensures { Changed p k v tree.old tree.new }
{
    let mut i = p + k;
    let mut g = v;
    tree[i] = g;
    // the way up halves the index
    while 1 < i {
        g = g.max(tree[sibling(i)]);
        i /= 2;
        tree[i] = g;
    }
}

// Leaf k becomes at least w, and so do the nodes above it, up to the first that is.
pub fn lift(tree: &mut [u64], p: usize, k: usize, w: u64)
    requires { Nodes p tree.old × (k < p) }
    ensures { Changed p k (max (get_or tree.old (p + k) 0) w) tree.old tree.new }
{
    let mut i = p + k;
    // the way up halves the index
    while 0 < i && tree[i] < w {
        tree[i] = w;
        i /= 2;
    }
}
