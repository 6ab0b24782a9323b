//! Trees of an output, one after the other.

ghost use Rattle.std.specs.Prelude.{◌≡◌, ◌≤◌, ◌<◌, ◌-◌, ℕ, List, [], ◌∷◌, ◌++◌, IfOk, IfSome, IfNone, OnOk, OnErr};
ghost use Rattle.std.specs.Prelude.{length, take, get_or};
ghost use Rattle.js_tree.specs.Postorder.{apply, arity, below, below_times, trees_of, trees_at};
ghost use Rattle.js_tree.specs.Insides.{AreLinked};

use crate::tree::Node;
use std::alloc::{AllocError, Global};
use std::marker::Model;

/// Trees, as their nodes in postorder. A contract sees them as the list of the nodes.
///
/// A place is a number of nodes from the first on; what these make is the trees up to it, of which the last one ends
/// there.
#[derive(Debug, Drop)]
pub struct Trees {
    nodes: Vec<Node>,
    /// The place where the tree of each node begins.
    starts: Vec<usize>,
}

impl Model for Trees {
    ghost use Rattle.std.specs.Prelude.{List};
    ghost use Rattle.js_tree.specs.declared.tree.Node.{Node};

    ghost Value = { List Node };

    ghost view = { λ t. t.nodes.items };

    ghost use Rattle.js_tree.specs.Insides.{AreLinked};

    ghost invariant = { λ t. AreLinked t.nodes.items t.starts.items };
}

impl Trees {
    /// No trees.
    pub fn new(alloc: Global) -> Trees
        ensures { result ≡ [] }
    {
        Trees {
            nodes: Vec::new(alloc),
            starts: Vec::new(alloc),
        }
    }

    /// The number of nodes, which is the place after the last tree.
    pub fn len(&self) -> usize
        ensures { result ≡ length self.now }
    {
        self.nodes.len()
    }

    /// Adds a node. The error means that memory ran out, and then the trees are as before.
    pub fn push(&mut self, node: Node) -> Result<(), AllocError>
        ensures ok { OnOk result (self.new ≡ self.old ++ node ∷ []) }
        ensures trees { OnOk result (trees_of self.new ≡ apply node (trees_of self.old)) }
        ensures err { OnErr result (self.new ≡ self.old) }
    {
        push(&mut self.nodes, &mut self.starts, node)
    }

    /// Takes the last node off, if there is one.
    pub fn pop(&mut self) -> Option<Node>
        ensures some { IfSome result (λ node. self.old ≡ self.new ++ node ∷ []) }
        ensures trees { IfSome result (λ node. trees_of self.old ≡ apply node (trees_of self.new)) }
        ensures none { IfNone result (self.old ≡ []) }
        ensures empty { IfNone result (self.new ≡ []) }
    {
        pop(&mut self.nodes, &mut self.starts)
    }

    /// The node that stands before a place, if one does.
    pub fn node(&self, place: usize) -> Option<&Node>
        ensures some { IfSome result (λ node. trees_at self.now place
            ≡ apply node.now (trees_at self.now (place - 1))) }
        ensures inside { IfSome result (λ _. 0 < place) }
        ensures none { IfNone result (place ≤ length self.now → trees_at self.now place ≡ []) }
    {
        node_before(&self.nodes, place)
    }

    /// The place where the tree begins that ends at a place.
    pub fn below(&self, place: usize) -> usize
        ensures trees { trees_at self.now result ≡ below (trees_at self.now place) }
        ensures before { result ≤ place - 1 }
    {
        start_below(&self.nodes, &self.starts, place)
    }
}

/// How many trees a node takes.
fn arity(node: &Node) -> usize
    ensures { result ≡ arity node.now }
{
    match node {
        Node::Int(_)
        | Node::Bool(_)
        | Node::Text(_)
        | Node::Var(_)
        | Node::NoItem
        | Node::NoField
        | Node::NoStatement
        | Node::Continue
        | Node::NoLine => 0,
        Node::Arrow(_)
        | Node::Block
        | Node::Object
        | Node::Property(_)
        | Node::List
        | Node::Helper(_)
        | Node::Return
        | Node::While => 1,
        Node::Call
        | Node::Binary(_)
        | Node::Item
        | Node::Field(_)
        | Node::Const(_)
        | Node::Let(_)
        | Node::Assign(_)
        | Node::Ended
        | Node::Line(_) => 2,
        Node::Conditional | Node::If => 3,
        Node::Program { .. } => 4,
    }
}

/// The node that stands before a place.
fn node_before(nodes: &[Node], place: usize) -> Option<&Node>
    ensures some { IfSome result (λ node. trees_at nodes.now place ≡ apply node.now (trees_at nodes.now (place - 1))) }
    ensures inside { IfSome result (λ _. 0 < place) }
    ensures none { IfNone result (place ≤ length nodes.now → trees_at nodes.now place ≡ []) }
{
    if place == 0 || nodes.len() < place {
        return None;
    }
    Some(&nodes[place - 1])
}

/// The place where the tree begins that ends at a place.
fn start_below(nodes: &[Node], starts: &[usize], place: usize) -> usize
    requires { AreLinked nodes.now starts.now }
    ensures trees { trees_at nodes.now result ≡ below (trees_at nodes.now place) }
    ensures before { result ≤ place - 1 }
{
    if place == 0 || nodes.is_empty() {
        return 0;
    }
    if place <= nodes.len() {
        starts[place - 1]
    } else {
        starts[nodes.len() - 1]
    }
}

/// The place where so many trees begin that end at the last place.
fn start_of(nodes: &[Node], starts: &[usize], trees: usize) -> usize
    requires { AreLinked nodes.now starts.now }
    ensures trees { trees_at nodes.now result ≡ below_times trees (trees_of nodes.now) }
    ensures before { result ≤ length nodes.now }
{
    let mut start = nodes.len();
    for _ in 0..trees {
        start = start_below(nodes, starts, start);
    }
    start
}

/// Adds a node, with where its tree begins.
#[tactic(auto, using(crate::proofs::Linked::linked_push, crate::proofs::Linked::build_push))]
fn push(nodes: &mut Vec<Node>, starts: &mut Vec<usize>, node: Node) -> Result<(), AllocError>
    requires { AreLinked nodes.old.items starts.old.items }
    ensures ok { OnOk result (nodes.new.items ≡ nodes.old.items ++ node ∷ []) }
    ensures trees { OnOk result (trees_of nodes.new.items ≡ apply node (trees_of nodes.old.items)) }
    ensures err { OnErr result (nodes.new.items ≡ nodes.old.items) }
    ensures linked { AreLinked nodes.new.items starts.new.items }
{
    let start = start_of(nodes, starts, arity(&node));
    starts.reserve(1)?;
    nodes.push(node)?;
    starts.push(start)?;
    Ok(())
}

/// Takes the last node off, with where its tree begins.
#[tactic(auto, using(crate::proofs::Linked::linked_pop, crate::proofs::Linked::build_push))]
fn pop(nodes: &mut Vec<Node>, starts: &mut Vec<usize>) -> Option<Node>
    requires { AreLinked nodes.old.items starts.old.items }
    ensures some { IfSome result (λ node. nodes.old.items ≡ nodes.new.items ++ node ∷ []) }
    ensures trees { IfSome result (λ node. trees_of nodes.old.items ≡ apply node (trees_of nodes.new.items)) }
    ensures none { IfNone result (nodes.old.items ≡ []) }
    ensures empty { IfNone result (nodes.new.items ≡ []) }
    ensures linked { AreLinked nodes.new.items starts.new.items }
{
    let node = nodes.pop()?;
    starts.pop();
    Some(node)
}
