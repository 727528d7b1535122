// Paths of files and of packages.
ghost use Rattle.std.specs.Prelude.{◌≡◌, ◌-◌, ◌≤◌, IfOk, length, not};
ghost use Rattle.std.specs.List.{suffix_len};
ghost use Rattle.go_module.specs.Modules.PathParts.{folder_of_path, import_path_of, is_plain, is_slash};
ghost use Rattle.go_module.specs.Modules.PathParts as of_path;

use go_base::{Bytes, NoMemory};
use std::alloc::Global;

/// Whether every byte of a path is an ASCII letter, a digit, or one of `-._~+/`.
pub fn is_plain_path(path: &[u8]) -> bool
    ensures { result ≡ is_plain path.now }
{
    path.iter().all(|byte| is_plain_byte(*byte))
}

fn is_plain_byte(byte: u8) -> bool
    ensures { result ≡ of_path.is_plain_byte byte }
{
    byte.is_ascii_alphanumeric() || b"-._~+/".contains(&byte)
}

/// The folder of a file: the bytes of its path before the last `/`, or none where there is none.
pub fn folder_of(path: &[u8]) -> &[u8]
    ensures { result.now ≡ folder_of_path path.now }
{
    &path[..last_start(path).saturating_sub(1)]
}

// The name of the file or of the folder at a path.
pub(crate) fn last_element(path: &[u8]) -> &[u8]
    ensures { result.now ≡ of_path.last_element path.now }
{
    &path[last_start(path)..]
}

// Where the last element of a path starts: behind the last `/`, or at 0.
fn last_start(path: &[u8]) -> usize
    ensures within { result ≤ length path.now }
    ensures start { result ≡ length path.now - suffix_len (λ byte. not (is_slash byte)) path.now }
{
    let mut start = path.len();
    while start > 0 && path[start - 1] != b'/' {
        start -= 1;
    }
    start
}

/// The path that imports the package in a folder of a module: the module's path, behind it `/` and
/// the folder where it is not the root. Fails only for want of memory.
pub fn import_path(alloc: Global, module_path: &[u8], folder: &[u8]) -> Result<Bytes, NoMemory>
    ensures { IfOk result (λ path. path ≡ import_path_of module_path.now folder.now) }
{
    let mut path = module_path.to_vec(alloc)?;
    if !folder.is_empty() {
        path.push(b'/')?;
        path.extend_from_slice(folder)?;
    }
    Ok(Bytes::new(path))
}

/// The path that imports the package in a folder of a root of stubs: the folder. Fails only for want
/// of memory.
pub fn stub_import_path(alloc: Global, folder: &[u8]) -> Result<Bytes, NoMemory>
    ensures { IfOk result (λ path. path ≡ folder.now) }
{
    Ok(Bytes::new(folder.to_vec(alloc)?))
}
