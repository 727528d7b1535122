// The top call on trees and sinks in memory: calls that fail, and reports that are generated.
ghost use Rattle.std.specs.Prelude.{◌≡◌, IfOk};
ghost use Rattle.go_base.specs.Tree.{HasDistinctPaths};

use crate::gocheck;
use go_base::{
    Bytes, FailPut, MemFile, MemSink, MemTree, Name, Sink, Status, Steps, SureSink, SureTree, Tree,
    Word, has_distinct_paths,
};
use std::alloc::{AllocError, Global};
use std::marker::Brand;
use std::sync::ledger::{Blank, Ledger};
use std::test::Fail;

// A file: its root, its path from there, and its text.
type File<'a> = (&'a str, &'a str, &'a str);

const GO_MOD: File = ("r", "go.mod", "module m\n\ngo 1.21\n");

fn word(alloc: Global, text: &str) -> Result<Word, AllocError> {
    Ok(Word::new(String::from_str(alloc, text)?))
}

fn words(alloc: Global, texts: &[&str]) -> Result<Vec<Word>, AllocError> {
    let mut words = Vec::new(alloc);
    for text in texts {
        words.push(word(alloc, text)?)?;
    }
    Ok(words)
}

fn mem_file(alloc: Global, root: &str, path: &str, text: &str) -> Result<MemFile, AllocError> {
    Ok(MemFile {
        root: word(alloc, root)?,
        path: Name::new(String::from_str(alloc, path)?),
        bytes: Bytes::new(text.as_bytes().to_vec(alloc)?),
    })
}

// These files, where no two of them have one path.
fn distinct(list: Vec<MemFile>) -> Result<Vec<MemFile>, Fail>
    ensures { IfOk result (λ list. HasDistinctPaths list.items) }
{
    if has_distinct_paths(&list) {
        Ok(list)
    } else {
        Err(Fail::from("two files of one path"))
    }
}

fn mem_files(alloc: Global, files: &[File]) -> Result<Vec<MemFile>, Fail>
    ensures { IfOk result (λ list. HasDistinctPaths list.items) }
{
    let mut list = Vec::new(alloc);
    for (root, path, text) in files {
        list.push(mem_file(alloc, root, path, text)?)?;
    }
    distinct(list)
}

fn counted_run<L: Ledger, T: Tree, S: Sink>(
    alloc: Global,
    blank: Blank,
    words: &[Word],
    tree: &mut T,
    out: &mut S,
) -> Status
    requires name { blank.name ≡ L.name }
    requires parts { blank.parts ≡ L.parts }
    requires some { blank.parts ≡ 1 }
{
    let mut steps = Steps::<L>::new(blank);
    gocheck(alloc, words, tree, out, &mut steps)
}

// A run with a new ledger.
fn run<T: Tree, S: Sink>(alloc: Global, words: &[Word], tree: &mut T, out: &mut S) -> Status {
    counted_run::<Brand, T, S>(alloc, Blank::new(1), words, tree, out)
}

const FILES: &[File] = &[
    GO_MOD,
    ("r", "a.go", "package p\n\nimport \"s\"\n\nconst A = s.K\n"),
    ("r", "b.go", "package p\n"),
    ("s", "s/s.go", "package s\n\nconst K = 1\n"),
];

const TEXT: &str = "module\tm\t1.21\n\
    package\ts\ts\taccepted\n\
    def\tstub:s/s.go:3:7\tK\tconst\tuntyped int\t1\n\
    expr\tstub:s/s.go:3:11\t3:12\tconst\tuntyped int\t1\n\
    package\tm\tp\taccepted\n\
    def\ta.go:5:7\tA\tconst\tuntyped int\t1\n\
    use\ta.go:5:11\ts\ta.go:3:8\n\
    use\ta.go:5:13\tK\tstub:s/s.go:3:7\n\
    expr\ta.go:5:11\t5:14\tconst\tuntyped int\t1\n";

// The status of the run whose call on the tree of that number fails, and what the sink has, whose put fails so.
fn failed(
    alloc: Global,
    given: &[&str],
    read: u64,
    put: FailPut,
) -> Result<(Status, MemSink), Fail> {
    let mut tree = MemTree::new(mem_files(alloc, FILES)?, vec![in alloc; read]?);
    let mut out = MemSink::new(alloc, vec![in alloc; put]?);
    let status = run(alloc, &words(alloc, given)?, &mut tree, &mut out);
    Ok((status, out))
}

// The calls: the list of r and go.mod; the list of s; both files of r, and that of s.
#[test]
fn each_read_fails_in_turn(rt: HostRuntime) -> Result<(), Fail> {
    let alloc = rt.alloc();
    let none = FailPut { call: 0, take: 0 };
    for read in 1..7 {
        let (status, out) = failed(alloc, &["r", "--stubs", "s"], read, none)?;
        assert_eq!(rt; status, Status::ReadFault, "{read}");
        assert_eq!(rt; out.taken().len(), 0, "{read}");
    }
    // Without stubs the fourth call reads b.go.
    let (status, out) = failed(alloc, &["r"], 4, none)?;
    assert_eq!(rt; status, Status::ReadFault);
    assert_eq!(rt; out.taken().len(), 0);
    Ok(())
}

#[test]
fn a_put_that_fails_leaves_a_prefix(rt: HostRuntime) -> Result<(), Fail> {
    let alloc = rt.alloc();
    let text = TEXT.as_bytes();
    for take in [0, 1, 3, text.len().saturating_sub(1)] {
        let put = FailPut { call: 1, take };
        let (status, out) = failed(alloc, &["r", "--stubs", "s"], 7, put)?;
        assert_eq!(rt; status, Status::WriteFault, "{take}");
        assert_eq!(rt; out.taken().len(), take, "{take}");
        assert!(rt; text.starts_with(out.taken()), "{take}");
    }
    // No other call comes.
    let put = FailPut { call: 2, take: 0 };
    let (status, out) = failed(alloc, &["r", "--stubs", "s"], 7, put)?;
    assert_eq!(rt; status, Status::Accepted);
    assert_eq!(rt; out.taken(), text);
    Ok(())
}

// The run on the module m of these files.
fn checked_files(alloc: Global, sources: &[(String, String)]) -> Result<(Status, SureSink), Fail> {
    let mut list = Vec::new(alloc);
    list.push(mem_file(alloc, GO_MOD.0, GO_MOD.1, GO_MOD.2)?)?;
    for (path, text) in sources {
        list.push(mem_file(alloc, "r", path.as_str(), text.as_str())?)?;
    }
    let mut tree = SureTree::new(distinct(list)?);
    let mut out = SureSink::new(alloc);
    let status = run(alloc, &words(alloc, &["r"])?, &mut tree, &mut out);
    Ok((status, out))
}

// That on one file.
fn checked(alloc: Global, source: &str) -> Result<(Status, SureSink), Fail> {
    let path = String::from_str(alloc, "a.go")?;
    let source = String::from_str(alloc, source)?;
    checked_files(alloc, &vec![in alloc; (path, source)]?)
}

// A package with the constant A of that value, and 999 packages of which each imports the one before.
fn chain(alloc: Global, value: &str) -> Result<Vec<(String, String)>, Fail> {
    let first = format!(in alloc; "package p\n\nconst A = {value}\n")?;
    let mut sources = vec![in alloc; (String::from_str(alloc, "p0/a.go")?, first)]?;
    for before in 0..999u32 {
        let number = before + 1;
        let text = format!(in alloc; "package p\n\nimport _ \"m/p{before}\"\n")?;
        sources.push((format!(in alloc; "p{number}/a.go")?, text))?;
    }
    Ok(sources)
}

#[test]
fn each_of_many_packages_has_its_report(rt: HostRuntime) -> Result<(), Fail> {
    let alloc = rt.alloc();
    let mut accepted = String::from_str(
        alloc,
        "module\tm\t1.21\npackage\tm/p0\tp\taccepted\n\
        def\tp0/a.go:3:7\tA\tconst\tuntyped int\t1\n\
        expr\tp0/a.go:3:11\t3:12\tconst\tuntyped int\t1\n",
    )?;
    let mut refused = String::from_str(
        alloc,
        "module\tm\t1.21\npackage\tm/p0\tp\trefused\nbroken\tp0/a.go:3:11\tP7\n",
    )?;
    for before in 0..999u32 {
        let number = before + 1;
        let own = format!(in alloc;
            "package\tm/p{number}\tp\taccepted\ndef\tp{number}/a.go:3:8\t_\tpackage\tm/p{before}\n"
        )?;
        accepted.push_str(own.as_str())?;
        refused.push_str(format!(in alloc; "package\tm/p{number}\tp\tskipped\n")?.as_str())?;
    }
    let (status, out) = checked_files(alloc, &chain(alloc, "1")?)?;
    assert_eq!(rt; status, Status::Accepted);
    assert!(rt; out.taken() == accepted.as_bytes());
    let (status, out) = checked_files(alloc, &chain(alloc, "B")?)?;
    assert_eq!(rt; status, Status::Refused);
    assert!(rt; out.taken() == refused.as_bytes());
    Ok(())
}

#[test]
fn a_long_chain_written_backwards_has_all_values(rt: HostRuntime) -> Result<(), Fail> {
    let alloc = rt.alloc();
    let mut source = String::from_str(alloc, "package p\n")?;
    let mut defs = String::from_str(alloc, "module\tm\t1.21\npackage\tm\tp\taccepted\n")?;
    for i in 1000..1999 {
        let next = i + 1;
        source.push_str(format!(in alloc; "const C{i} = C{next} + 1\n")?.as_str())?;
    }
    source.push_str("const C1999 = 1\n")?;
    for k in 0..1000u32 {
        let line = 2 + k;
        let name = 1000 + k;
        let value = 1000u32.saturating_sub(k);
        let def = format!(in alloc; "def\ta.go:{line}:7\tC{name}\tconst\tuntyped int\t{value}\n")?;
        defs.push_str(def.as_str())?;
    }
    let (status, out) = checked(alloc, source.as_str())?;
    assert_eq!(rt; status, Status::Accepted);
    assert!(rt; out.taken().starts_with(defs.as_bytes()));
    Ok(())
}

#[test]
fn long_sums_and_deep_parentheses(rt: HostRuntime) -> Result<(), Fail> {
    let alloc = rt.alloc();
    let sum = " + 1".repeat(alloc, 498)?;
    let open = "(".repeat(alloc, 400)?;
    let close = ")".repeat(alloc, 400)?;
    let rows = [
        (format!(in alloc; "package p\nconst X = 1{sum}\n")?, 499),
        (
            format!(in alloc; "package p\nconst X = {open}1{close}\n")?,
            1,
        ),
    ];
    for (source, value) in &rows {
        let front = format!(in alloc;
            "module\tm\t1.21\npackage\tm\tp\taccepted\ndef\ta.go:2:7\tX\tconst\tuntyped int\t{value}\n"
        )?;
        let (status, out) = checked(alloc, source.as_str())?;
        assert_eq!(rt; status, Status::Accepted, "{value}");
        assert!(rt; out.taken().starts_with(front.as_bytes()), "{value}");
    }
    Ok(())
}
