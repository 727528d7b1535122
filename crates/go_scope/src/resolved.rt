// What the occurrences of a file denote (Go specification, "Declarations and scope").
ghost use Rattle.std.specs.Prelude.{◌≡◌, IfOk, map};
ghost use Rattle.std.specs.Option.{option_map};
ghost use Rattle.std.specs.Option.{option_copied};
ghost use Rattle.go_module.specs.Names.Rules.OccurrenceRules as rule;
ghost use Rattle.go_scope.specs.Held.{innermost, is_declared};
ghost use Rattle.go_scope.specs.Resolved.{denoted_of, resolved_in};

use crate::held::Declared;
use go_base::{Name, NoMemory};
use go_module::{Block, ObjId, Occurrence, Region, object_id};
use go_names::is_word;
use go_tree::NodeId;
use std::alloc::Global;

/// What an occurrence denotes: the number of an object; the spec of the import that declares it, if one
/// does; the place in the module of the package that it is, if it is one; and whether it is one of the
/// predeclared identifiers of complex numbers.
#[derive(Clone, Copy, Debug)]
pub struct Denoted {
    pub object: ObjId,
    pub import: Option<NodeId>,
    pub denotes: Option<usize>,
    pub complex: bool,
}

/// An occurrence, whether a block declares its name, and what it denotes.
#[derive(Debug, Drop)]
pub struct Resolved {
    pub occurrence: Occurrence,
    pub held: bool,
    pub denoted: Option<Denoted>,
}

/// The blocks around those of files: the universe block and the package block.
#[derive(Drop)]
pub struct Around<'a> {
    pub universe: Declared<'a>,
    pub block: Declared<'a>,
}

/// What each of these occurrences denotes in a file with that block. An error is want of memory.
pub fn resolve_all(
    alloc: Global,
    around: &Around,
    file: &Declared,
    occurrences: Vec<Occurrence>,
) -> Result<Vec<Resolved>, NoMemory>
    ensures { IfOk result (λ list. list.items
        ≡ map (resolved_in around.now.universe around.now.block file.now) occurrences.items) }
{
    let mut list = Vec::new(alloc);
    for occurrence in occurrences {
        list.push(resolve(around, file, occurrence))?;
    }
    Ok(list)
}

fn resolve(around: &Around, file: &Declared, occurrence: Occurrence) -> Resolved
    ensures { result ≡ resolved_in around.now.universe around.now.block file.now occurrence }
{
    let held = is_declared(around, file, &occurrence.name);
    let denoted = innermost(around, file, &occurrence.name);
    Resolved {
        occurrence,
        held,
        denoted,
    }
}

// Whether a block declares the name.
fn is_declared(around: &Around, file: &Declared, name: &Name) -> bool
    ensures { result ≡ is_declared around.now.universe around.now.block file.now name.now }
{
    file.has(name) || around.block.has(name) || around.universe.has(name)
}

// What the name denotes.
fn innermost(around: &Around, file: &Declared, name: &Name) -> Option<Denoted>
    ensures { result ≡ option_map denoted_of (innermost around.now.universe around.now.block file.now name.now) }
{
    if file.has(name) {
        denoted_by(file.only(name))
    } else if around.block.has(name) {
        denoted_by(around.block.only(name))
    } else {
        denoted_by(around.universe.only(name))
    }
}

fn denoted_by(region: Option<&Region>) -> Option<Denoted>
    ensures { result ≡ option_map denoted_of (option_copied region.entry) }
{
    match region {
        Some(region) => Some(denoted_of(region)),
        None => None,
    }
}

fn denoted_of(region: &Region) -> Denoted
    ensures { result ≡ denoted_of region.now }
{
    Denoted {
        object: object_id(&region.object),
        import: region.import,
        denotes: region.denotes,
        complex: is_complex(region),
    }
}

fn is_complex(region: &Region) -> bool
    ensures { result ≡ rule.is_complex region.now }
{
    is_universe_block(region.block) && is_complex_name(&region.object.name)
}

fn is_universe_block(block: Block) -> bool
    ensures { result ≡ rule.is_universe_block block }
{
    match block {
        Block::Universe => true,
        Block::Package => false,
        Block::File(_) => false,
    }
}

fn is_complex_name(name: &Name) -> bool
    ensures { result ≡ rule.is_complex_name name.now }
{
    is_word(name, b"complex64")
        || is_word(name, b"complex128")
        || is_word(name, b"complex")
        || is_word(name, b"real")
        || is_word(name, b"imag")
}
