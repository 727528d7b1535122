// The numbers of the nodes of a Go file, or what it breaks by itself.
use go_load::{ReadSource, read_source};
use go_tree::NodeId;
use std::alloc::Global;
use std::test::Fail;

// The number of the root where the first node has 45, or each broken rule with its offset.
fn told(alloc: Global, path: &str, bytes: &[u8]) -> Result<String, Fail> {
    match read_source(alloc, path.as_bytes(), bytes, 7, NodeId(45))? {
        ReadSource::Whole(file) => {
            let number = file.number;
            let root = file.root.id().0;
            Ok(format!(in alloc; "file {number}, root {root}")?)
        }
        ReadSource::Broken(list) => {
            let mut text = String::new(alloc);
            for broken in &list {
                let offset = broken.pos.offset;
                let rule = broken.rule;
                text.push_str(format!(in alloc; "{offset} {rule};")?.as_str())?;
            }
            Ok(text)
        }
    }
}

#[test]
fn files(rt: HostRuntime) -> Result<(), Fail> {
    let rows = [
        ("a.go", "package p\n", "file 7, root 46"),
        ("a.go", "package p\n\nimport \"x\"\n", "file 7, root 49"),
        (
            "a.go",
            "package p\nconst A, B = 1, q.C\n",
            "file 7, root 56",
        ),
        ("a.go", "package p\nconst init = int\n", "file 7, root 52"),
        ("a@.go", "package p\nvar x = 1\n", "0 U6;14 U0;"),
        (
            "a.go",
            "package p\nvar x *func(...chan<- T) (y <-chan T)\ntype T struct { a, b, c [1]q.E \"t\"; *E }\n",
            "file 7, root 80",
        ),
        (
            "a.go",
            "package p\nvar x *int\ntype T[P any] [*x]int\ntype U interface { T[P]; *T | int }\n",
            "27 U0;36 U0;63 U0;68 U0;",
        ),
    ];
    for (path, text, wanted) in rows {
        let answer = told(rt.alloc(), path, text.as_bytes())?;
        assert_eq!(rt; answer.as_str(), wanted);
    }
    Ok(())
}
