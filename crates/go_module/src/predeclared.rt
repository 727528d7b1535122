// The universe block (Go specification, "Predeclared identifiers").
ghost use Rattle.std.specs.Prelude.{◌≡◌, IfOk, map};
ghost use Rattle.go_module.specs.Names.Universe as spec;

use crate::block::{Block, Region};
use crate::object::{ObjKind, Object};
use go_base::{Name, NoMemory};
use go_tree::NodeId;
use std::alloc::Global;

/// The predeclared identifiers and what each denotes, under the headings of the specification's list. Each
/// stands at the place that is its number.
pub const PREDECLARED: [(&str, ObjKind); 44] = [
    // Types
    ("any", ObjKind::Alias),
    ("bool", ObjKind::Defined),
    ("byte", ObjKind::Alias),
    ("comparable", ObjKind::Defined),
    ("complex64", ObjKind::Defined),
    ("complex128", ObjKind::Defined),
    ("error", ObjKind::Defined),
    ("float32", ObjKind::Defined),
    ("float64", ObjKind::Defined),
    ("int", ObjKind::Defined),
    ("int8", ObjKind::Defined),
    ("int16", ObjKind::Defined),
    ("int32", ObjKind::Defined),
    ("int64", ObjKind::Defined),
    ("rune", ObjKind::Alias),
    ("string", ObjKind::Defined),
    ("uint", ObjKind::Defined),
    ("uint8", ObjKind::Defined),
    ("uint16", ObjKind::Defined),
    ("uint32", ObjKind::Defined),
    ("uint64", ObjKind::Defined),
    ("uintptr", ObjKind::Defined),
    // Constants
    ("true", ObjKind::Const),
    ("false", ObjKind::Const),
    ("iota", ObjKind::Const),
    // Zero value
    ("nil", ObjKind::Nil),
    // Functions
    ("append", ObjKind::Builtin),
    ("cap", ObjKind::Builtin),
    ("clear", ObjKind::Builtin),
    ("close", ObjKind::Builtin),
    ("complex", ObjKind::Builtin),
    ("copy", ObjKind::Builtin),
    ("delete", ObjKind::Builtin),
    ("imag", ObjKind::Builtin),
    ("len", ObjKind::Builtin),
    ("make", ObjKind::Builtin),
    ("max", ObjKind::Builtin),
    ("min", ObjKind::Builtin),
    ("new", ObjKind::Builtin),
    ("panic", ObjKind::Builtin),
    ("print", ObjKind::Builtin),
    ("println", ObjKind::Builtin),
    ("real", ObjKind::Builtin),
    ("recover", ObjKind::Builtin),
];

/// The regions of the universe block, in the order of their numbers. An error is want of memory.
pub fn universe(alloc: Global) -> Result<Vec<Region>, NoMemory>
    ensures { IfOk result (λ regions. regions.items ≡ spec.universe) }
{
    regions_of(alloc, &PREDECLARED)
}

// A region for each identifier, numbered from 0.
fn regions_of(alloc: Global, rows: &[(&str, ObjKind)]) -> Result<Vec<Region>, NoMemory>
    ensures { IfOk result (λ regions.
        regions.items ≡ spec.universe_from 0 (map (λ row. (row.0.now, row.1)) rows.now)) }
{
    let mut regions = Vec::new(alloc);
    for (i, (name, kind)) in rows.iter().enumerate() {
        regions.push(universe_region(alloc, i, name, *kind)?)?;
    }
    Ok(regions)
}

fn universe_region(
    alloc: Global,
    number: usize,
    name: &str,
    kind: ObjKind,
) -> Result<Region, NoMemory>
    ensures { IfOk result (λ region. region ≡ spec.universe_region number (name.now, kind)) }
{
    let name = Name::new(String::from_str(alloc, name)?);
    let object = Object {
        name,
        kind,
        at: NodeId(number),
        package: 0,
        params: 0,
    };
    Ok(Region {
        block: Block::Universe,
        object,
        file: 0,
        at: 0,
        import: None,
        denotes: None,
    })
}
