// Blocks and the names that they declare (Go specification, "Blocks", "Declarations and scope").
use crate::object::Object;
use go_base::Name;
use go_tree::NodeId;

/// A block (Go specification, "Blocks").
#[derive(Clone, Copy, Debug, PartialEq, Eq)]
pub enum Block {
    /// all Go source text
    Universe,
    /// all Go source text of the package
    Package,
    /// all Go source text of the file at this place among the package's files
    File(usize),
}

/// A region: a block in which the name of an object denotes that object (Go specification, "Declarations
/// and scope"), and where it is declared: the place of the file among the package's files, and the offset
/// of the name, or of the import's string where the name is not written; both 0 in the universe.
#[derive(Debug, Drop)]
pub struct Region {
    pub block: Block,
    pub object: Object,
    pub file: usize,
    pub at: usize,
    /// the node of the import spec that declares it, if one does
    pub import: Option<NodeId>,
    /// the place in the module of the package that it denotes, if it is the name of an import
    pub denotes: Option<usize>,
}

/// An import that declares names in the block of its file: the node of its spec, the place of the file
/// among the package's files, and the offset of the spec's first byte.
#[derive(Clone, Copy, Debug, PartialEq, Eq)]
pub struct Import {
    pub id: NodeId,
    pub file: usize,
    pub at: usize,
}

/// An identifier that is not declared where it stands: its node, the place of the file among the
/// package's files, its offset and its text, and the name behind its `.` where it stands before one.
#[derive(Debug, Drop)]
pub struct Occurrence {
    pub id: NodeId,
    pub file: usize,
    pub at: usize,
    pub name: Name,
    pub selected: Option<Selected>,
}

/// A name behind a `.`: its node, its offset and its text.
#[derive(Debug, Drop)]
pub struct Selected {
    pub id: NodeId,
    pub at: usize,
    pub name: Name,
}
