// A search tree of deadlines, seen as the list of them from left to right. Each node keeps its height, and a side that is two
// levels higher than the other is turned over to it, which keeps it low; that it does is not proved. A node comes in a box that
// was made before.
ghost use Rattle.std.specs.Prelude.{◌≡◌, [], ◌∷◌, ◌++◌};
ghost use Rattle.cc_timer.specs.Deadlines.{first, is_due_before, with_deadline, without_deadline, AreInOrder};
ghost use Rattle.cc_timer.specs.Tree.{listed, listed_root};

use crate::who::{Who, is_before};
use std::marker::Model;
use std::mem;

#[cycle(tree)]
#[derive(Drop)]
pub(crate) struct Tree {
    root: Root,
}

#[cycle(tree)]
#[derive(Drop)]
enum Root {
    Empty,
    Node(Box<Fork>),
}

/// A deadline with those before it, those after it, and how many levels it stands over.
#[cycle(tree)]
#[derive(Drop)]
pub(crate) struct Fork {
    pub(crate) left: Tree,
    pub(crate) deadline: (u64, Who),
    pub(crate) height: u8,
    pub(crate) right: Tree,
}

impl Model for Tree {
    ghost use Rattle.std.specs.Prelude.{ℕ, List, length};
    ghost use Rattle.cc_timer.specs.declared.who.Who.{Who};

    ghost Value = { List (ℕ × Who) };

    ghost use Rattle.cc_timer.specs.Tree.{listed_root};

    ghost view = { λ t. listed_root t.root };

    ghost size = { length };

    ghost use Rattle.cc_timer.specs.TreeFalls.{depth_le-length-listed};

    ghost size_decreases = { λ t h. depth_le-length-listed t.root };
}

impl Tree {
    pub(crate) fn new() -> Tree
        ensures { result ≡ [] }
    {
        Tree { root: Root::Empty }
    }

    fn of(node: Box<Fork>) -> Tree
        ensures { result ≡ listed node.value }
    {
        Tree {
            root: Root::Node(node),
        }
    }

    fn height(&self) -> u8 {
        match &self.root {
            Root::Empty => 0,
            Root::Node(node) => node.height,
        }
    }

    fn into_root(self) -> Root
        ensures { listed_root result ≡ self }
    {
        self.root
    }

    /// The deadline that is due first.
    pub(crate) fn first(&self) -> Option<(u64, Who)>
        ensures { result ≡ first self.now }
    {
        match &self.root {
            Root::Empty => None,
            Root::Node(node) => match node.left.first() {
                None => Some(node.deadline),
                found => found,
            },
        }
    }

    /// The tree with the node's deadline in its place, where it is not there yet.
    pub(crate) fn insert(self, node: Box<Fork>) -> Tree
        requires { AreInOrder self }
        ensures { result ≡ with_deadline node.value.deadline self }
    {
        let Root::Node(mut here) = self.root else {
            return Tree::of(alone(node));
        };
        if is_before(node.deadline, here.deadline) {
            let left = mem::replace(&mut here.left, Tree::new());
            here.left = left.insert(node);
            return Tree::of(settled(here));
        }
        if is_before(here.deadline, node.deadline) {
            let right = mem::replace(&mut here.right, Tree::new());
            here.right = right.insert(node);
            return Tree::of(settled(here));
        }
        Tree::of(here)
    }

    /// The tree without the deadline.
    pub(crate) fn remove(self, deadline: (u64, Who)) -> Tree
        requires { AreInOrder self }
        ensures { result ≡ without_deadline deadline self }
    {
        let Root::Node(mut here) = self.root else {
            return Tree::new();
        };
        if is_before(deadline, here.deadline) {
            let left = mem::replace(&mut here.left, Tree::new());
            here.left = left.remove(deadline);
            return Tree::of(settled(here));
        }
        if is_before(here.deadline, deadline) {
            let right = mem::replace(&mut here.right, Tree::new());
            here.right = right.remove(deadline);
            return Tree::of(settled(here));
        }
        joined(here)
    }
}

// The node without its sides.
fn alone(mut node: Box<Fork>) -> Box<Fork>
    ensures { listed result.value ≡ node.value.deadline ∷ [] }
{
    node.left = Tree::new();
    node.right = Tree::new();
    node
}

// The node of the first deadline, and the others.
fn split_first(mut node: Box<Fork>) -> (Box<Fork>, Tree)
    ensures { listed node.value ≡ result.0.value.deadline ∷ result.1 }
{
    match mem::replace(&mut node.left, Tree::new()).into_root() {
        Root::Empty => {
            let others = mem::replace(&mut node.right, Tree::new());
            (node, others)
        }
        Root::Node(left) => {
            let (first, others) = split_first(left);
            node.left = others;
            (first, Tree::of(settled(node)))
        }
    }
}

// Both sides of the node, without its own deadline.
fn joined(mut node: Box<Fork>) -> Tree
    ensures { result ≡ node.value.left ++ node.value.right }
{
    let left = mem::replace(&mut node.left, Tree::new());
    match mem::replace(&mut node.right, Tree::new()).into_root() {
        Root::Empty => left,
        Root::Node(right) => {
            let (mut next, others) = split_first(right);
            next.left = left;
            next.right = others;
            Tree::of(settled(next))
        }
    }
}

// The node with its height.
fn measured(mut node: Box<Fork>) -> Box<Fork>
    ensures left { result.value.left ≡ node.value.left }
    ensures deadline { result.value.deadline ≡ node.value.deadline }
    ensures right { result.value.right ≡ node.value.right }
{
    node.height = node
        .left
        .height()
        .max(node.right.height())
        .saturating_add(1);
    node
}

// The same deadlines, with sides that are at most one level apart where they were at most two.
fn settled(node: Box<Fork>) -> Box<Fork>
    ensures { listed result.value ≡ listed node.value }
{
    let (left, right) = (node.left.height(), node.right.height());
    if left > right.saturating_add(1) {
        lowered_left(node)
    } else if right > left.saturating_add(1) {
        lowered_right(node)
    } else {
        measured(node)
    }
}

// A left side that leans to the right is turned over first.
fn lowered_left(mut node: Box<Fork>) -> Box<Fork>
    ensures { listed result.value ≡ listed node.value }
{
    let side = mem::replace(&mut node.left, Tree::new());
    node.left = match side.into_root() {
        Root::Empty => Tree::new(),
        Root::Node(side) => {
            if side.right.height() > side.left.height() {
                Tree::of(turned_left(side))
            } else {
                Tree::of(side)
            }
        }
    };
    turned_right(node)
}

fn lowered_right(mut node: Box<Fork>) -> Box<Fork>
    ensures { listed result.value ≡ listed node.value }
{
    let side = mem::replace(&mut node.right, Tree::new());
    node.right = match side.into_root() {
        Root::Empty => Tree::new(),
        Root::Node(side) => {
            if side.left.height() > side.right.height() {
                Tree::of(turned_right(side))
            } else {
                Tree::of(side)
            }
        }
    };
    turned_left(node)
}

// The root of the left side comes to the top.
fn turned_right(mut node: Box<Fork>) -> Box<Fork>
    ensures { listed result.value ≡ listed node.value }
{
    match mem::replace(&mut node.left, Tree::new()).into_root() {
        Root::Empty => measured(node),
        Root::Node(mut top) => {
            node.left = mem::replace(&mut top.right, Tree::new());
            top.right = Tree::of(measured(node));
            measured(top)
        }
    }
}

// The root of the right side comes to the top.
fn turned_left(mut node: Box<Fork>) -> Box<Fork>
    ensures { listed result.value ≡ listed node.value }
{
    match mem::replace(&mut node.right, Tree::new()).into_root() {
        Root::Empty => measured(node),
        Root::Node(mut top) => {
            node.right = mem::replace(&mut top.left, Tree::new());
            top.left = Tree::of(measured(node));
            measured(top)
        }
    }
}
