// The Go files of a module, and the parts of paths.
use crate::{folder_of, go_files, import_path, is_plain_path, stub_import_path};
use go_base::{Name, NoMemory};
use std::alloc::{AllocError, Global};

// The paths of a text, one a word.
fn paths(alloc: Global, text: &str) -> Result<Vec<Name>, AllocError> {
    let mut paths = Vec::new(alloc);
    for word in text.split_whitespace() {
        paths.push(Name::new(String::from_str(alloc, word)?))?;
    }
    Ok(paths)
}

// The paths as a text, each behind a space.
fn text(alloc: Global, paths: &[Name]) -> Result<String, AllocError> {
    let mut text = String::new(alloc);
    for path in paths {
        text.push_str(" ")?;
        text.push_str(path.as_str())?;
    }
    Ok(text)
}

#[test]
fn files_of_a_module(rt: HostRuntime) -> Result<(), NoMemory> {
    let alloc = rt.alloc();
    // A listing may name a file twice.
    let rows = [
        ("", ""),
        ("b.go a.go b.go a.go b.go", " a.go b.go"),
        ("go xgo a/b.go a_test.go c/go.mod c/d.go", " a/b.go"),
    ];
    for (listing, want) in rows {
        let files = go_files(alloc, &paths(alloc, listing)?)?;
        assert_eq!(rt; text(alloc, &files)?.as_str(), want, "{listing}");
    }
    Ok(())
}

#[test]
fn plain_paths(rt: HostRuntime) {
    let rows = [
        ("", true),
        ("example.com/a-b_c~d+e/F9", true),
        ("\u{e9}", false),
        ("a\0", false),
    ];
    for (path, want) in rows {
        assert_eq!(rt; is_plain_path(path.as_bytes()), want, "{path:?}");
    }
}

#[test]
fn folders_and_imports(rt: HostRuntime) -> Result<(), NoMemory> {
    let alloc = rt.alloc();
    // the path of a file, its folder, and what imports that folder of the module `m.org/n`
    let rows = [
        ("x.go", "", "m.org/n"),
        ("a/x.go", "a", "m.org/n/a"),
        ("a/b/x.go", "a/b", "m.org/n/a/b"),
        ("a/", "a", "m.org/n/a"),
    ];
    for (path, folder, import) in rows {
        let found = folder_of(path.as_bytes());
        assert_eq!(rt; found, folder.as_bytes(), "{path}");
        let of_module = import_path(alloc, b"m.org/n", found)?;
        assert_eq!(rt; of_module.as_slice(), import.as_bytes(), "{path}");
        let of_stub = stub_import_path(alloc, found)?;
        assert_eq!(rt; of_stub.as_slice(), folder.as_bytes(), "{path}");
    }
    Ok(())
}
