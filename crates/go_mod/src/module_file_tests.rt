// The file go.mod: what it says, or what it breaks.
use crate::{ModuleFile, read_module_file};
use std::alloc::Global;
use std::test::Fail;

// The path and the version, or each broken rule with its offset.
fn told(alloc: Global, bytes: &[u8]) -> Result<String, Fail> {
    match read_module_file(alloc, bytes)? {
        ModuleFile::Good { path, version } => {
            let path = String::from_utf8_lossy(alloc, path.as_slice())?;
            Ok(format!(in alloc; "{path} 1.{version}")?)
        }
        ModuleFile::Broken(list) => {
            let mut text = String::new(alloc);
            for broken in &list {
                let file = broken.pos.file;
                let offset = broken.pos.offset;
                let rule = broken.rule;
                text.push_str(format!(in alloc; "{file}:{offset} {rule};")?.as_str())?;
            }
            Ok(text)
        }
    }
}

#[test]
fn a_file_says_what_its_module_is_or_what_it_breaks(rt: HostRuntime) -> Result<(), Fail> {
    let rows: [(&[u8], &str); 2] = [
        (b"module example.com/m\n\ngo 1.21\n", "example.com/m 1.21"),
        (
            b"go 1.20\nmodule m\ngo 1.21\nmodule n\n",
            "0:0 M3;0:8 M2;0:17 M3;0:25 M2;",
        ),
    ];
    for (bytes, wanted) in rows {
        let text = told(rt.alloc(), bytes)?;
        assert_eq!(rt; text.as_str(), wanted);
    }
    Ok(())
}
