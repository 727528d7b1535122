// The calls on a tree by which a module is loaded, in their order.
ghost use Rattle.std.specs.Prelude.{Some};

use crate::mem_trees::{File, GO_MOD, mem_files, word};
use go_base::{Bytes, Name, SureTree, Tree, TreeFault, Word};
use go_load::{LoadFault, load};
use std::alloc::Global;
use std::test::Fail;

// A tree in memory that writes down its calls.
#[derive(Drop)]
struct LoggedTree {
    tree: SureTree,
    log: String,
}

impl Tree for LoggedTree {
    ghost files = { λ logged. Some logged.tree.files };

    ghost faults = { λ _. 0 };

    fn list(&mut self, alloc: Global, root: &Word) -> Result<Vec<Name>, TreeFault> {
        let root_text = root.as_str();
        let line = format!(in alloc; "list {root_text};")?;
        self.log.push_str(line.as_str())?;
        self.tree.list(alloc, root)
    }

    fn read(
        &mut self,
        alloc: Global,
        root: &Word,
        path: &Name,
        most: usize,
    ) -> Result<Bytes, TreeFault> {
        let root_text = root.as_str();
        let path_text = path.as_str();
        let line = format!(in alloc; "read {root_text}/{path_text} {most};")?;
        self.log.push_str(line.as_str())?;
        self.tree.read(alloc, root, path, most)
    }

    ghost distinct = { λ logged. logged.tree.distinct };
}

// The calls by which these files are loaded, and behind them what came of it.
fn calls(alloc: Global, files: &[File], stubs: Option<&Word>) -> Result<String, Fail> {
    let tree = SureTree::new(mem_files(alloc, files)?);
    let log = String::new(alloc);
    let mut tree = LoggedTree { tree, log };
    let root = word(alloc, "r")?;
    let end = match load(alloc, &mut tree, &root, stubs) {
        Ok(_) => "read",
        Err(LoadFault::Broken(_)) => "broken",
        Err(LoadFault::ReadFault) => "read fault",
        Err(LoadFault::NoMemory) => "no memory",
    };
    tree.log.push_str(end)?;
    Ok(tree.log)
}

// No Go file has a package clause: the module breaks a rule where one is read.
const WHOLE: &[File] = &[
    ("+y/b.go", ""),
    ("b.go", ""),
    ("+go.mod", "module s\ngo 1.21\n"),
    ("+x/a.go", ""),
    GO_MOD,
    ("c_test.go", ""),
    ("a/c.go", ""),
];

#[test]
fn calls_have_their_order(rt: HostRuntime) -> Result<(), Fail> {
    let alloc = rt.alloc();
    let stubs = word(alloc, "s")?;
    let rows: [(&[File], Option<&Word>, &str); 5] = [
        (&[], Some(&stubs), "list r;broken"),
        (
            &[("go.mod", "module m\n"), ("a.go", "")],
            Some(&stubs),
            "list r;read r/go.mod 16777217;broken",
        ),
        (
            &[GO_MOD, ("+x/a.go", "")],
            None,
            "list r;read r/go.mod 16777217;read",
        ),
        (
            WHOLE,
            None,
            "list r;read r/go.mod 16777217;read r/a/c.go 16777217;read r/b.go 16777217;broken",
        ),
        (
            WHOLE,
            Some(&stubs),
            "list r;read r/go.mod 16777217;list s;read r/a/c.go 16777217;read r/b.go 16777217;\
             read s/x/a.go 16777217;read s/y/b.go 16777217;broken",
        ),
    ];
    for (files, stubs, want) in rows {
        let found = calls(alloc, files, stubs)?;
        assert_eq!(rt; found.as_str(), want);
    }
    Ok(())
}
