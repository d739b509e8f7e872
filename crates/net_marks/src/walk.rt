//! The walk over the nodes of a net, from the last one to the first, with the marks of the variable wires.

ghost use Rattle.std.specs.Prelude.{◌≡◌, ◌≤◌, ◌<◌, ◌^◌, length};
ghost use Rattle.net_marks.specs.Passing.{mark_at, pass, value_of};
ghost use Rattle.net_marks.specs.Walks.{Comes, Passed, left, rest_of, set_mark};

use net_build::{Net, Node};

/// What is known of a variable wire: how many binders stand around its variable's own, and the box in which the wire stands. A box
/// is known by one more than the number of its wire, and 0 is outside all boxes.
#[derive(Clone, Copy)]
pub struct Mark {
    /// How many binders stand around the variable's own.
    pub level: u32,
    /// The box in which the wire stands.
    pub place: u64,
}

/// How many nodes are left, and the marks of the wires.
#[derive(Drop)]
pub struct Walk {
    /// How many of the net's nodes are left: the first ones.
    pub left: u32,
    /// The mark of each wire, by its number.
    pub marks: Vec<Mark>,
}

impl Walk {
    /// The mark of a wire. A number past the list counts as no binder around, outside all boxes.
    pub fn mark(&self, wire: u32) -> Mark
        ensures { result ≡ mark_at self.now.marks.items wire }
    {
        match self.marks.get(wire as usize) {
            Some(mark) => *mark,
            None => Mark { level: 0, place: 0 },
        }
    }

    /// Marks a wire. A number past the list is no wire.
    pub fn set(&mut self, wire: u32, mark: Mark)
        ensures marks { self.new.marks.items ≡ set_mark self.old.marks.items wire mark }
        ensures left { self.new.left ≡ self.old.left }
    {
        if let Some(slot) = self.marks.get_mut(wire as usize) {
            *slot = mark;
        }
    }
}

/// The next node, off the nodes that are left: the last of them. `None` where none is left, before as after.
pub fn next(net: &Net, walk: &mut Walk) -> Option<Node>
    requires { walk.old.left ≤ length net.now.nodes }
    ensures node { Comes result (left net.now walk.old) (left net.now walk.new) }
    ensures within { walk.new.left ≤ length net.now.nodes }
    ensures marks { walk.new.marks ≡ walk.old.marks }
{
    if walk.left == 0 {
        return None;
    }
    let node = net.node(walk.left - 1);
    walk.left -= 1;
    node
}

/// Passes the nodes that stand between a term and its operands. The walk stands in the box `place`, which is in the box `around`, and
/// `want` is the value wire that is to come. Answers the box in which the walk then stands, and the value wire that is to come there.
/// Boxes are known as in a `Mark`.
pub fn pass(net: &Net, walk: &mut Walk, around: u64, place: u64, want: u32) -> (u64, u32)
    requires { walk.old.left ≤ length net.now.nodes }
    ensures passed { pass around place want (left net.now walk.old) walk.old.marks.items ≡ rest_of net.now walk.new result.0 result.1 }
    ensures within { walk.new.left ≤ length net.now.nodes }
{
    let mut outer = around;
    let mut inner = place;
    let mut next = want;
    while walk.left > 0 {
        let Some(node) = net.node(walk.left - 1) else {
            return (inner, next);
        };
        match pass_one(walk, node, outer, inner, next) {
            Some((around, place, want)) => {
                outer = around;
                inner = place;
                next = want;
                walk.left -= 1;
            }
            None => return (inner, next),
        }
    }
    (inner, next)
}

/// Passes one such node: the box around, the box and the value wire after it. `None`: the node is none of these.
fn pass_one(
    walk: &mut Walk,
    node: Node,
    around: u64,
    place: u64,
    want: u32,
) -> Option<(u64, u64, u32)>
    ensures passed { Passed result around place want node walk.old.marks.items walk.new.marks.items }
    ensures left { walk.new.left ≡ walk.old.left }
{
    match node {
        Node::Con { left, right, wire } => {
            let mark = walk.mark(wire);
            walk.set(left, mark);
            walk.set(right, mark);
            Some((around, place, want))
        }
        Node::Weak { .. } => Some((around, place, want)),
        Node::Door { inside, outside } => {
            let mark = walk.mark(outside);
            if mark.place == around {
                let level = mark.level;
                walk.set(inside, Mark { level, place });
            }
            Some((around, place, want))
        }
        Node::BoxNode { inside, outside } => {
            if outside == want {
                Some((place, outside as u64 + 1, inside))
            } else {
                None
            }
        }
        _ => None,
    }
}

/// The value wire of a term's own node, and the last wire of any other.
pub fn value_of(node: Node) -> u32
    ensures { result ≡ value_of node }
{
    match node {
        Node::Const { wire, .. }
        | Node::Succ { wire, .. }
        | Node::Pred { wire, .. }
        | Node::Binary { wire, .. }
        | Node::Ifz { wire, .. }
        | Node::Der { wire, .. }
        | Node::Con { wire, .. }
        | Node::Lam { wire, .. }
        | Node::App { wire, .. }
        | Node::FixBox { wire, .. }
        | Node::Root { wire }
        | Node::Pair { wire, .. }
        | Node::Proj { wire, .. } => wire,
        Node::Weak { variable } => variable,
        Node::BoxNode { outside, .. } | Node::Door { outside, .. } => outside,
    }
}
