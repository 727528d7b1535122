// Files that are still to be put into packages: they stand at their numbers until they are taken.
ghost use Rattle.std.specs.Prelude.{◌≡◌, ◌++◌, IfOk, None, OnOk, Some, map, option_map, option_to_list, slice_set};
ghost use Rattle.go_module.specs.Modules.Module.{file_view};
ghost use Rattle.go_load.specs.Packages.Assembly.{cleared, files_left, slot_at, taken};

use go_base::NoMemory;
use go_module::SourceFile;
use std::alloc::Global;

/// A slot for each file, with the file in it.
pub fn slots_of(alloc: Global, files: Vec<SourceFile>) -> Result<Vec<Option<SourceFile>>, NoMemory>
    ensures { IfOk result (λ slots. slots.items ≡ map Some files.items) }
{
    Ok(files.into_iter().map(|file| Some(file)).collect(alloc)?)
}

/// Takes the files with these numbers that are still there.
pub fn take_files(
    alloc: Global,
    slots: &mut [Option<SourceFile>],
    numbers: &[usize],
) -> Result<Vec<SourceFile>, NoMemory>
    ensures files { IfOk result (λ files. map file_view files.items
        ≡ taken (files_left slots.old) numbers.now) }
    ensures rest { OnOk result (files_left slots.new ≡ cleared (files_left slots.old) numbers.now) }
{
    let mut files = Vec::with_capacity(alloc, numbers.len())?;
    for number in numbers {
        move_file(slots, *number, &mut files)?;
    }
    Ok(files)
}

// Puts the file with that number behind others, if it is still there.
fn move_file(
    slots: &mut [Option<SourceFile>],
    number: usize,
    files: &mut Vec<SourceFile>,
) -> Result<(), NoMemory>
    ensures files { OnOk result (map file_view files.new.items
        ≡ map file_view files.old.items ++ option_to_list (slot_at (files_left slots.old) number)) }
    ensures rest { files_left slots.new ≡ slice_set (files_left slots.old) number None }
{
    if let Some(file) = take_file(slots, number) {
        files.push(file)?;
    }
    Ok(())
}

// Takes the file with that number, if it is still there.
fn take_file(slots: &mut [Option<SourceFile>], number: usize) -> Option<SourceFile>
    ensures file { option_map file_view result ≡ slot_at (files_left slots.old) number }
    ensures rest { files_left slots.new ≡ slice_set (files_left slots.old) number None }
{
    if number < slots.len() {
        slots[number].take()
    } else {
        None
    }
}
