// Modules that are loaded from trees in memory: calls that fail, and a long chain of packages.
ghost use Rattle.std.specs.Prelude.{IfOk};
ghost use Rattle.go_base.specs.Tree.{HasDistinctPaths};

use crate::mem_trees::{File, GO_MOD, distinct, mem_files, word};
use go_base::{Bytes, MemFile, MemTree, Name, SureTree};
use go_load::{LoadFault, load};
use std::alloc::Global;
use std::test::Fail;

// What is loaded from the root `r` and the root of stubs `s` of these files, where the call with that
// number fails: the paths of the packages, each with a blank behind it.
fn told(alloc: Global, files: &[File], failing: u64) -> Result<String, Fail> {
    let mut tree = MemTree::new(mem_files(alloc, files)?, vec![in alloc; failing]?);
    let root = word(alloc, "r")?;
    let stubs = word(alloc, "s")?;
    match load(alloc, &mut tree, &root, Some(&stubs)) {
        Ok(module) => {
            let mut text = String::new(alloc);
            for package in &module.packages {
                text.push_str(package.path.as_str())?;
                text.push_str(" ")?;
            }
            Ok(text)
        }
        Err(LoadFault::Broken(_)) => Ok(String::from_str(alloc, "broken")?),
        Err(LoadFault::ReadFault) => Ok(String::from_str(alloc, "read fault")?),
        Err(LoadFault::NoMemory) => Ok(String::from_str(alloc, "no memory")?),
    }
}

// The calls are: list `r`, read go.mod, list `s`, read a.go, b/b.go and then the stub.
#[test]
fn each_call_that_fails_is_a_read_fault(rt: HostRuntime) -> Result<(), Fail> {
    const FILES: [File; 4] = [
        ("b/b.go", "package b\n"),
        GO_MOD,
        ("+q/q.go", "package q\n"),
        ("a.go", "package p\n"),
    ];
    for call in 1u64..9 {
        let text = told(rt.alloc(), &FILES, call)?;
        let wanted = if call <= 6 { "read fault" } else { "m m/b " };
        assert_eq!(rt; text.as_str(), wanted, "call {call}");
    }
    let text = told(rt.alloc(), &[GO_MOD, ("a.go", "package")], 0)?;
    assert_eq!(rt; text.as_str(), "broken");
    Ok(())
}

// The packages 0 to 999, each of which imports the one before.
fn chain(alloc: Global) -> Result<Vec<MemFile>, Fail>
    ensures { IfOk result (λ list. HasDistinctPaths list.items) }
{
    let mut list = mem_files(alloc, &[GO_MOD])?;
    for number in 0..1_000u32 {
        let import = match number.checked_sub(1) {
            Some(before) => format!(in alloc; "import \"m/{before}\"\n")?,
            None => String::new(alloc),
        };
        let text = format!(in alloc; "package p\n{import}")?;
        list.push(MemFile {
            root: word(alloc, "r")?,
            path: Name::new(format!(in alloc; "{number}/a.go")?),
            bytes: Bytes::new(text.into_bytes()),
        })?;
    }
    distinct(list)
}

#[test]
fn a_chain_of_packages_has_each_behind_the_one_before(rt: HostRuntime) -> Result<(), Fail> {
    let alloc = rt.alloc();
    let mut tree = SureTree::new(chain(alloc)?);
    let root = word(alloc, "r")?;
    let Ok(module) = load(alloc, &mut tree, &root, None) else {
        return Err(Fail::from("no module"));
    };
    assert_eq!(rt; module.packages.len(), 1_000);
    for (place, package) in module.packages.iter().enumerate() {
        let path = format!(in alloc; "m/{place}")?;
        assert_eq!(rt; package.path.as_str(), path.as_str());
        assert_eq!(rt; package.imports.first().copied(), place.checked_sub(1));
    }
    Ok(())
}
