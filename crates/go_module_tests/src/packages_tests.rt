// The tables of packages: those that files make, which of them are reached, and what they break.
use go_base::{Broken, Bytes, Name, NoMemory};
use go_load::{Head, ImportSpec, Packages, broken_packages, packages_of};
use std::alloc::Global;
use std::test::Fail;

// A file: its path, which begins with `+` below the root of stubs, the name in its package clause, and
// the paths that it imports, each with a blank behind it. The name stands at 8, and the imports at 100
// and every 10 from there.
type File = (&'static str, &'static str, &'static str);

fn bytes(alloc: Global, text: &str) -> Result<Bytes, Fail> {
    Ok(Bytes::new(text.as_bytes().to_vec(alloc)?))
}

fn head(alloc: Global, file: &File) -> Result<Head, Fail> {
    let (path, name, imports) = *file;
    let stub = path.starts_with('+');
    let mut list = Vec::new(alloc);
    let mut at = 100usize;
    for import in imports.split(' ') {
        if import != "-" {
            list.push(ImportSpec::new(bytes(alloc, import)?, at))?;
        }
        at = at.saturating_add(10);
    }
    let below = String::from_str(alloc, path.trim_start_matches('+'))?;
    Ok(Head::new(stub, Name::new(below), bytes(alloc, name)?, 8, list))
}

fn heads(alloc: Global, files: &[File]) -> Result<Vec<Head>, Fail> {
    let mut heads = Vec::new(alloc);
    for file in files {
        heads.push(head(alloc, file)?)?;
    }
    Ok(heads)
}

// Numbers, each with a blank before it.
fn numbers(alloc: Global, list: &[usize]) -> Result<String, Fail> {
    let mut text = String::new(alloc);
    for number in list {
        text.push_str(format!(in alloc; " {number}")?.as_str())?;
    }
    Ok(text)
}

// A line for each package: `+` for a stub, the path, the files behind `:`, the packages that it imports
// behind `>`, and `!` where it is not reached.
fn lines_of(alloc: Global, packages: &Packages) -> Result<String, Fail> {
    let mut text = String::new(alloc);
    for (k, path) in packages.paths().iter().enumerate() {
        let path = std::str::from_utf8(path.as_bytes()).ok().ok_or("no text")?;
        let stub = packages.stubs().get(k).copied().ok_or("no flag")?;
        let files = packages.files().get(k).ok_or("no files")?;
        let imports = packages.imports().get(k).ok_or("no imports")?;
        let reached = packages.reached().get(k).copied().ok_or("no mark")?;
        let files = numbers(alloc, files.as_slice())?;
        let imports = numbers(alloc, imports.as_slice())?;
        let sign = if stub { "+" } else { "" };
        let end = if reached { "" } else { " !" };
        text.push_str(format!(in alloc; "{sign}{path}:{files} >{imports}{end}\n")?.as_str())?;
    }
    Ok(text)
}

// The broken rules, each with its file and offset before it.
fn broken_of(alloc: Global, list: &[Broken]) -> Result<String, Fail> {
    let mut text = String::new(alloc);
    for broken in list {
        let Broken { pos, rule } = *broken;
        let file = pos.file;
        let offset = pos.offset;
        text.push_str(format!(in alloc; "{file}:{offset} {rule} ")?.as_str())?;
    }
    Ok(text)
}

// The packages of the module `m`, and what they break.
fn loaded(alloc: Global, heads: &[Head]) -> Result<(Packages, Vec<Broken>), NoMemory> {
    let path = b"m".as_slice();
    let packages = packages_of(alloc, path, heads)?;
    let broken = broken_packages(alloc, path, heads, &packages)?;
    Ok((packages, broken))
}

// What files of the module `m` make, and what they break.
fn told(alloc: Global, files: &[File]) -> Result<(String, String), Fail> {
    let heads = heads(alloc, files)?;
    let (packages, broken) = loaded(alloc, heads.as_slice())?;
    Ok((
        lines_of(alloc, &packages)?,
        broken_of(alloc, broken.as_slice())?,
    ))
}

// Stubs that are not reached stand in no report.
const ROWS: [(&[File], &str, &str); 3] = [
    (
        &[
            ("b/a.go", "b", "-"),
            ("+m/b/c.go", "c", "-"),
            ("+m/c.go", "m", "-"),
        ],
        "+m: 2 > !\nm/b: 0 >\n",
        "",
    ),
    (
        &[
            ("a.go", "p", "io"),
            ("+fmt/f.go", "_", "io x"),
            ("+io/i.go", "io", "-"),
        ],
        "+fmt: 1 > 1 !\n+io: 2 >\nm: 0 > 1\n",
        "",
    ),
    (
        &[("a.go", "p", "fmt"), ("+fmt/f.go", "fmt", "m fmt")],
        "+fmt: 1 > 0\nm: 0 > 0\n",
        "1:100 P1 1:110 P2 ",
    ),
];

#[test]
fn modules(rt: HostRuntime) -> Result<(), Fail> {
    for (i, (files, packages, broken)) in ROWS.iter().enumerate() {
        let (lines, found) = told(rt.alloc(), files)?;
        assert_eq!(rt; lines.as_str(), *packages, "packages of row {i}");
        assert_eq!(rt; found.as_str(), *broken, "broken in row {i}");
    }
    Ok(())
}

// A package of many files, each of which imports one of many stubs.
#[test]
fn many_files(rt: HostRuntime) -> Result<(), Fail> {
    let alloc = rt.alloc();
    let mut heads = Vec::new(alloc);
    for i in 0..3000usize {
        let mut imports = Vec::new(alloc);
        let path = format!(in alloc; "s{i}")?;
        imports.push(ImportSpec::new(bytes(alloc, path.as_str())?, 20))?;
        let path = format!(in alloc; "f{i}.go")?;
        heads.push(Head::new(false, Name::new(path), bytes(alloc, "p")?, 8, imports))?;
    }
    for i in 0..2999usize {
        let path = format!(in alloc; "s{i}/f.go")?;
        heads.push(Head::new(
            true,
            Name::new(path),
            bytes(alloc, "s")?,
            8,
            Vec::new(alloc),
        ))?;
    }
    let (packages, broken) = loaded(alloc, heads.as_slice())?;
    assert_eq!(rt; packages.paths().len(), 3000);
    assert!(rt; packages.reached().iter().all(|mark| *mark));
    assert_eq!(rt;
        broken_of(alloc, broken.as_slice())?.as_str(),
        "2999:20 P1 "
    );
    Ok(())
}
