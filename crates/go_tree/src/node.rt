// Trees of Go files.
ghost use Rattle.std.specs.Prelude.{◌≡◌, ◌↔◌, IfSome, IsSome, IsTrue, map};
ghost use Rattle.go_tree.specs.Tree.{Tree, tree_of, id_of, kind_of, start_of, end_of, text_of, parts_of, more_trees, no_trees, trees_of};

use crate::node_kind::NodeKind;
use go_base::Bytes;

/// The number of a node. Each node of a module has its own.
#[derive(Clone, Copy, Debug, PartialEq, Eq, Hash)]
pub struct NodeId(pub usize);

/// A node: its number, its bytes from `start` up to `end` as offsets from 0, and its parts in
/// source order. An identifier and a literal have the bytes of their span as `text`; others none.
#[derive(Debug, Drop)]
pub struct Node {
    pub id: NodeId,
    pub start: usize,
    pub end: usize,
    pub kind: NodeKind,
    pub text: Bytes,
    pub parts: Vec<Node>,
}

/// The tree of a file, and the file's number among those of its module, from 0.
#[derive(Debug, Drop)]
pub struct File {
    pub number: usize,
    pub root: Node,
}

impl Node {
    /// The node's number.
    pub fn id(&self) -> NodeId
        ensures { result.0 ≡ id_of (tree_of self.now) }
    {
        self.id
    }

    /// Which production it was read by.
    pub fn kind(&self) -> NodeKind
        ensures { result ≡ kind_of (tree_of self.now) }
    {
        self.kind
    }

    /// Whether it was read by that production.
    pub fn is(&self, kind: NodeKind) -> bool
        ensures { IsTrue result ↔ (kind_of (tree_of self.now) ≡ kind) }
    {
        kind == self.kind()
    }

    /// The offset of its first byte.
    pub fn start(&self) -> usize
        ensures { result ≡ start_of (tree_of self.now) }
    {
        self.start
    }

    /// The offset behind its last byte.
    pub fn end(&self) -> usize
        ensures { result ≡ end_of (tree_of self.now) }
    {
        self.end
    }

    /// The bytes of an identifier or a literal; none for other nodes.
    pub fn text(&self) -> &[u8]
        ensures { result.now ≡ text_of (tree_of self.now) }
    {
        self.text.as_slice()
    }

    /// Its parts, in source order.
    pub fn parts(&self) -> &[Node]
        ensures { trees_of (map tree_of result.now) ≡ parts_of (tree_of self.now) }
    {
        &self.parts
    }

    /// Its one part, where it has one.
    #[tactic(auto, using(crate::proofs::TreeLemmas::one_part))]
    pub fn only_part(&self) -> Option<&Node>
        ensures some { IfSome result (λ a. parts_of (tree_of self.now) ≡ more_trees (tree_of a.now) no_trees) }
        ensures none { (a : Tree) → parts_of (tree_of self.now) ≡ more_trees a no_trees → IsSome result }
    {
        match self.parts.as_slice() {
            [a] => Some(a),
            _ => None,
        }
    }

    /// Both parts, where it has two.
    #[tactic(auto, using(crate::proofs::TreeLemmas::two_parts))]
    pub fn both_parts(&self) -> Option<(&Node, &Node)>
        ensures some { IfSome result (λ p. parts_of (tree_of self.now) ≡ more_trees (tree_of p.0.now) (more_trees (tree_of p.1.now) no_trees)) }
        ensures none { (a b : Tree) → parts_of (tree_of self.now) ≡ more_trees a (more_trees b no_trees) → IsSome result }
    {
        match self.parts.as_slice() {
            [a, b] => Some((a, b)),
            _ => None,
        }
    }
}
