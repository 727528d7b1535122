// What a file breaks by its form, from a tree that is built by hand, and the rule of a fault.
ghost use Rattle.std.specs.Prelude.{◌≡◌, IfOk};
ghost use Rattle.go_tree.specs.Tree.{tree_of, start_of};

use go_base::{Broken, Bytes, Family, NoMemory, Pos, Rule};
use go_form::{broken_by, broken_forms};
use go_module::UNBUILT_FORM;
use go_text::ParseFault;
use go_tree::{Node, NodeId, NodeKind};
use std::alloc::Global;
use std::test::Fail;

fn node(
    alloc: Global,
    kind: NodeKind,
    start: usize,
    end: usize,
    parts: Vec<Node>,
) -> Result<Node, NoMemory>
    ensures { IfOk result (λ n. start_of (tree_of n) ≡ start) }
{
    Ok(Node {
        id: NodeId(0),
        start,
        end,
        kind,
        text: Bytes::new(Vec::new(alloc)),
        parts,
    })
}

// const X
fn declaration(alloc: Global) -> Result<Node, NoMemory> {
    let name = node(alloc, NodeKind::Name, 16, 17, Vec::new(alloc))?;
    let names = node(alloc, NodeKind::IdentList, 16, 17, vec![in alloc; name]?)?;
    let spec = node(alloc, NodeKind::ConstSpec, 16, 17, vec![in alloc; names]?)?;
    node(alloc, NodeKind::ConstDecl, 10, 17, vec![in alloc; spec]?)
}

fn syntax_rule(number: u16) -> Rule {
    Rule {
        family: Family::S,
        number,
    }
}

fn at(offset: usize, rule: Rule) -> Broken {
    Broken {
        pos: Pos { file: 3, offset },
        rule,
    }
}

// What file 3 breaks, `package p`, a line end and `const X`.
fn broken(alloc: Global) -> Result<Vec<Broken>, NoMemory> {
    let package = node(alloc, NodeKind::Name, 8, 9, Vec::new(alloc))?;
    let parts = vec![in alloc; package, declaration(alloc)?]?;
    let root = node(alloc, NodeKind::File, 0, 17, parts)?;
    broken_forms(alloc, 3, b"package p\nconst X", &root)
}

#[test]
fn a_spec_without_values_breaks_two_rules(rt: HostRuntime) -> Result<(), Fail> {
    let list = broken(rt.alloc())?;
    let wanted = [at(16, UNBUILT_FORM), at(16, syntax_rule(8))];
    assert_eq!(rt; list.as_slice(), &wanted[..]);
    Ok(())
}

#[test]
fn a_syntax_fault_breaks_one_rule(rt: HostRuntime) -> Result<(), Fail> {
    let broken = broken_by(3, ParseFault::Syntax(7))?;
    assert_eq!(rt; broken, at(7, syntax_rule(3)));
    Ok(())
}
