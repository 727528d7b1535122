// Real folders, on one that the test writes.
use go_base::{FolderTree, Name, Tree, TreeFault, Word};
use std::alloc::{AllocError, Global};
use std::fs;
use std::os::unix::fs::symlink;
use std::test::Fail;

#[test]
fn a_real_folder_is_a_tree(rt: HostRuntime) -> Result<(), Fail> {
    let alloc = rt.alloc();
    fs::create_dir_all(&rt, "root/sub/deep")?;
    fs::write(&rt, "root/a.go", "package p\n")?;
    fs::write(&rt, "root/sub/deep/b.go", "package q\n")?;
    symlink(&rt, "a.go", "root/link.go")?;
    symlink(&rt, "sub", "root/linked")?;
    let mut tree = FolderTree::new(rt.clone()?);

    let lists = [
        ("root", Ok("a.go sub/deep/b.go")),
        ("root/sub", Ok("deep/b.go")),
        ("missing", Ok("")),
        ("root/linked", Ok("")),
        ("root/a.go", Err(TreeFault::Failed)),
    ];
    for (root, wanted) in lists {
        let found = match tree.list(alloc, &word(alloc, root)?) {
            Ok(mut names) => {
                names.sort()?;
                Ok(joined(alloc, &names)?)
            }
            Err(fault) => Err(fault),
        };
        assert_eq!(rt;
            found
                .as_ref()
                .map(|text| text.as_str())
                .map_err(|fault| *fault),
            wanted,
            "{root}"
        );
    }

    let reads = [
        ("root", "a.go", 7, Ok("package")),
        ("root", "a.go", 99, Ok("package p\n")),
        ("root", "sub/deep/b.go", 99, Ok("package q\n")),
        ("root", "missing.go", 99, Ok("")),
        ("root", "missing/a.go", 99, Ok("")),
        ("missing", "a.go", 99, Ok("")),
        ("root", "link.go", 99, Ok("")),
        ("root", "linked/deep/b.go", 99, Ok("")),
        ("root", "sub", 99, Err(TreeFault::Failed)),
        ("root/a.go", "a.go", 99, Err(TreeFault::Failed)),
    ];
    for (root, path, most, wanted) in reads {
        let path = Name::new(String::from_str(alloc, path)?);
        let found = tree.read(alloc, &word(alloc, root)?, &path, most);
        let found = found
            .as_ref()
            .map(|bytes| bytes.as_slice())
            .map_err(|fault| *fault);
        assert_eq!(rt;
            found,
            wanted.map(|text| text.as_bytes()),
            "{root} {path:?}"
        );
    }
    Ok(())
}

fn word(alloc: Global, text: &str) -> Result<Word, AllocError> {
    Ok(Word::new(String::from_str(alloc, text)?))
}

// The names with a space between each two.
fn joined(alloc: Global, names: &[Name]) -> Result<String, AllocError> {
    let mut text = String::new(alloc);
    for name in names {
        if !text.is_empty() {
            text.push(' ')?;
        }
        text.push_str(name.as_str())?;
    }
    Ok(text)
}
