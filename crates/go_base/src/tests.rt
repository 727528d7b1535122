// That calls succeed where there is memory, and the values of a few tables.
use crate::{
    Bytes, FailPut, Family, LineCol, LineStarts, MemFile, MemSink, MemTree, Name, Rule, Sink,
    SinkFault, Status, SureSink, SureTree, Tree, TreeFault, Word, has_distinct_paths, place,
};
use std::alloc::{AllocError, Global};
use std::test::Fail;

#[test]
fn places(rt: HostRuntime) -> Result<(), Fail> {
    // a text, an offset, and the line and column there
    let rows = [
        ("", 0, 1, 1),
        ("ab", 2, 1, 3),
        ("ab\ncd\n", 0, 1, 1),
        ("ab\ncd\n", 2, 1, 3),
        ("ab\ncd\n", 3, 2, 1),
        ("ab\ncd\n", 4, 2, 2),
        ("ab\ncd\n", 6, 3, 1),
        ("\n\n", 1, 2, 1),
        ("\té\r\n", 3, 1, 4),
        ("\té\r\n", 5, 2, 1),
    ];
    for (text, offset, line, col) in rows {
        let bytes = text.as_bytes();
        assert!(rt; offset <= bytes.len());
        let want = LineCol { line, col };
        assert_eq!(rt; place(bytes, offset), want, "{text:?} at {offset}");
        let lines = LineStarts::of(rt.alloc(), bytes)?;
        assert_eq!(rt;
            lines.place(bytes, offset),
            want,
            "{text:?} at {offset}, by its lines"
        );
    }
    Ok(())
}

#[test]
fn rules(rt: HostRuntime) -> Result<(), Fail> {
    let rows = [
        (rule(Family::U, 0), "U0"),
        (rule(Family::S, 1), "S1"),
        (rule(Family::M, 3), "M3"),
        (rule(Family::P, 14), "P14"),
        (rule(Family::C, 7), "C7"),
        (rule(Family::R, 60), "R60"),
        (rule(Family::I, 2), "I2"),
        (rule(Family::N, 1), "N1"),
        (rule(Family::L, 65535), "L65535"),
    ];
    for (rule, text) in rows {
        assert_eq!(rt; format!(in rt.alloc(); "{rule}")?.as_str(), text);
    }
    Ok(())
}

fn rule(family: Family, number: u16) -> Rule {
    Rule { family, number }
}

#[test]
fn statuses(rt: HostRuntime) {
    let rows = [
        (Status::Accepted, 0, ""),
        (Status::Refused, 1, ""),
        (Status::Usage, 2, "usage: gocheck ROOT [--stubs ROOT2]"),
        (Status::Beyond, 3, "outside the profile or past a limit"),
        (Status::ReadFault, 4, "reading failed"),
        (Status::WriteFault, 5, "writing failed"),
        (Status::NoMemory, 6, "out of memory"),
    ];
    for (status, code, message) in rows {
        assert_eq!(rt; status.code(), code);
        assert_eq!(rt; status.message(), message);
    }
}

fn name(alloc: Global, text: &str) -> Result<Name, AllocError> {
    Ok(Name::new(String::from_str(alloc, text)?))
}

fn word(alloc: Global, text: &str) -> Result<Word, AllocError> {
    Ok(Word::new(String::from_str(alloc, text)?))
}

fn bytes(alloc: Global, text: &str) -> Result<Bytes, AllocError> {
    Ok(Bytes::new(text.as_bytes().to_vec(alloc)?))
}

fn file(alloc: Global, root: &str, path: &str, text: &str) -> Result<MemFile, AllocError> {
    Ok(MemFile {
        root: word(alloc, root)?,
        path: name(alloc, path)?,
        bytes: bytes(alloc, text)?,
    })
}

// Two files below `r`, and one below `s` at the path of the first.
fn files(alloc: Global) -> Result<Vec<MemFile>, AllocError> {
    let mut files = Vec::new(alloc);
    files.push(file(alloc, "r", "a.go", "package a")?)?;
    files.push(file(alloc, "r", "b/c.go", "")?)?;
    files.push(file(alloc, "s", "a.go", "package s")?)?;
    Ok(files)
}

#[test]
fn names(rt: HostRuntime) -> Result<(), Fail> {
    let a = name(rt.alloc(), "a.go")?;
    let b = name(rt.alloc(), "a.gp")?;
    assert!(rt; a == a.clone()? && a != b && a < b);
    assert_eq!(rt; a.as_bytes(), b"a.go".as_slice());
    assert_eq!(rt; b.into_string().as_str(), "a.gp");
    Ok(())
}

#[test]
fn words(rt: HostRuntime) -> Result<(), Fail> {
    let r = word(rt.alloc(), "r")?;
    let s = word(rt.alloc(), "s")?;
    assert!(rt; r == r.clone()? && r != s);
    assert_eq!(rt; r.as_bytes(), b"r".as_slice());
    assert_eq!(rt; s.into_string().as_str(), "s");
    Ok(())
}

#[test]
fn fronts(rt: HostRuntime) -> Result<(), Fail> {
    let text = bytes(rt.alloc(), "abc")?;
    for (most, want) in [(0, ""), (2, "ab"), (3, "abc"), (4, "abc")] {
        let front = text.front(rt.alloc(), most)?;
        assert_eq!(rt; front.as_slice(), want.as_bytes());
        assert_eq!(rt; front == text.clone()?, most >= 3);
        assert_eq!(rt; front.into_vec().as_slice(), want.as_bytes());
    }
    Ok(())
}

#[test]
fn places_of_files(rt: HostRuntime) -> Result<(), Fail> {
    let alloc = rt.alloc();
    let mut files = files(alloc)?;
    assert!(rt; has_distinct_paths(&files));
    files.push(file(alloc, "r", "b/c.go", "again")?)?;
    assert!(rt; !has_distinct_paths(&files));
    Ok(())
}

// The bytes that `read` gives, or where there is no path the paths that `list` gives.
fn answer<T: Tree>(
    alloc: Global,
    tree: &mut T,
    root: &str,
    path: &str,
    most: usize,
) -> Result<Vec<u8>, TreeFault> {
    let root = word(alloc, root)?;
    if path.is_empty() {
        return joined(alloc, tree.list(alloc, &root)?);
    }
    Ok(
        tree.read(alloc, &root, &name(alloc, path)?, most)?
            .into_vec(),
    )
}

fn joined(alloc: Global, paths: Vec<Name>) -> Result<Vec<u8>, TreeFault> {
    let mut all = Vec::new(alloc);
    for path in paths {
        all.extend_from_slice(path.as_bytes())?;
        all.push(b' ')?;
    }
    Ok(all)
}

#[test]
fn trees(rt: HostRuntime) -> Result<(), Fail> {
    let alloc = rt.alloc();
    let all = files(alloc)?;
    assert!(rt; has_distinct_paths(&all));
    let mut tree = MemTree::new(all, vec![in alloc; 3, 4]?);
    let rows = [
        ("r", "", 0, Some("a.go b/c.go ")),
        ("r", "a.go", 7, Some("package")),
        ("r", "a.go", 7, None),
        ("r", "", 0, None),
        ("s", "a.go", 99, Some("package s")),
        ("s", "b/c.go", 99, Some("")),
        ("t", "", 0, Some("")),
    ];
    for (root, path, most, want) in rows {
        let got = answer(alloc, &mut tree, root, path, most);
        match want {
            Some(text) => assert_eq!(rt; got?.as_slice(), text.as_bytes()),
            None => assert_eq!(rt; got.err(), Some(TreeFault::Failed)),
        }
    }
    Ok(())
}

#[test]
fn sure_trees(rt: HostRuntime) -> Result<(), Fail> {
    let alloc = rt.alloc();
    let all = files(alloc)?;
    assert!(rt; has_distinct_paths(&all));
    let mut tree = SureTree::new(all);
    for (root, path, most, want) in [("s", "", 0, "a.go "), ("r", "a.go", 1, "p")] {
        let got = answer(alloc, &mut tree, root, path, most)?;
        assert_eq!(rt; got.as_slice(), want.as_bytes());
    }
    Ok(())
}

#[test]
fn sinks(rt: HostRuntime) -> Result<(), Fail> {
    let mut failing = Vec::new(rt.alloc());
    failing.push(FailPut { call: 2, take: 3 })?;
    failing.push(FailPut { call: 2, take: 1 })?;
    failing.push(FailPut { call: 4, take: 9 })?;
    let mut sink = MemSink::new(rt.alloc(), failing);
    let mut sure = SureSink::new(rt.alloc());
    // what is put, what the listed puts make of it, and what was taken then
    let rows = [
        ("ab", Ok(()), "ab"),
        ("cdef", Err(SinkFault::Failed), "abcde"),
        ("g", Ok(()), "abcdeg"),
        ("hi", Err(SinkFault::Failed), "abcdeghi"),
        ("", Ok(()), "abcdeghi"),
    ];
    for (text, answer, taken) in rows {
        assert_eq!(rt; sink.put(text.as_bytes()), answer, "{text}");
        assert_eq!(rt; sink.taken(), taken.as_bytes(), "{text}");
        sure.put(text.as_bytes())?;
    }
    assert_eq!(rt; sure.taken(), b"abcdefghi".as_slice());
    Ok(())
}
