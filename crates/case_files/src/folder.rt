use crate::texts::{Named, push_string};
use std::alloc::Global;
use std::fs::DirEntry;
use std::rt::Files;
use std::{fs, io};

/// Adds the name of an entry of a folder, if the entry is a file.
fn add_name<R: Files + Drop>(
    alloc: Global,
    entry: io::Result<DirEntry<R>>,
    names: &mut Vec<String>,
) -> io::Result<()> {
    let entry = entry?;
    if entry.file_type()?.is_file() {
        push_string(alloc, names, entry.file_name())?;
    }
    Ok(())
}

/// Adds the names of the files of a folder.
fn add_names<R: Files + AllocGlobal + Clone + Drop>(
    rt: &R,
    folder: &str,
    names: &mut Vec<String>,
) -> io::Result<()> {
    for entry in fs::read_dir(rt, folder)? {
        add_name(rt.alloc(), entry, names)?;
    }
    Ok(())
}

/// The bytes of a file of a folder.
fn file_bytes<R: Files + AllocGlobal>(rt: &R, folder: &str, name: &String) -> io::Result<Vec<u8>> {
    let path = format!(in rt.alloc(); "{folder}/{name}")?;
    fs::read(rt, path.as_str())
}

/// A file of a folder.
fn file<R: Files + AllocGlobal>(rt: &R, folder: &str, name: &String) -> io::Result<Named> {
    let bytes = file_bytes(rt, folder, name)?;
    let name = name.clone()?;
    Ok(Named { name, bytes })
}

/// The files with these names in a folder.
fn named_files<R: Files + AllocGlobal>(
    rt: &R,
    folder: &str,
    names: &[String],
) -> io::Result<Vec<Named>> {
    let mut files = Vec::new(rt.alloc());
    for name in names {
        files.push(file(rt, folder, name)?)?;
    }
    Ok(files)
}

/// The files of a folder, in the order of their names.
pub fn files<R: Files + AllocGlobal + Clone + Drop>(
    rt: &R,
    folder: &str,
) -> io::Result<Vec<Named>> {
    let mut names = Vec::new(rt.alloc());
    add_names(rt, folder, &mut names)?;
    names.sort()?;
    named_files(rt, folder, names.as_slice())
}
