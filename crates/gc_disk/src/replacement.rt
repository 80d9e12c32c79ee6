//! Files that are written beside the ones that they replace.

use std::alloc::Allocator;
use std::fs::{self, OpenFile, OpenOptions, Permissions};
use std::io::{self, ErrorKind};
use std::path::{Path, PathBuf};
use std::rt;

/// How many names of a new file are tried.
const MOST_NAMES: u32 = 1_000;

/// How many links a name may lead through.
const MOST_LINKS: u32 = 40;

/// The folders in which the system names the files that this process has open.
const OPEN_FILES: [&str; 2] = ["/proc/self/fd", "/proc/thread-self/fd"];

/// The name of standard output there.
const STANDARD_OUTPUT: &str = "1";

/// A new file, and the path that it is to have.
#[derive(Drop)]
pub(crate) struct Replacement<A: Allocator> {
    new: PathBuf<A>,
    path: PathBuf<A>,
}

impl<A: Allocator> Replacement<A> {
    /// Renames the new file. Where that fails, it is removed.
    pub(crate) fn finish(self, files: &impl rt::Files) -> io::Result<()> {
        let renamed = fs::rename(files, self.new.as_path(), self.path.as_path());
        if renamed.is_err() {
            self.remove(files);
        }
        renamed
    }

    /// Removes the new file.
    pub(crate) fn remove(self, files: &impl rt::Files) {
        let _ = fs::remove_file(files, self.new.as_path());
    }
}

/// A file opened to be written, and, where it is regular or isn't there yet, the new file beside it that was opened in
/// its place. It refuses names of standard output and of `source`.
pub(crate) fn open_out<R: rt::Files + Alloc>(
    rt: &R,
    name: &str,
    source: &str,
) -> io::Result<(R::File, Option<Replacement<R::A>>)> {
    let Some(path) = linked_path(rt, name)? else {
        return Err(ErrorKind::InvalidInput.into());
    };
    if is_one_file(rt, name, source)? {
        return Err(ErrorKind::InvalidInput.into());
    }
    match fs::metadata(rt, name) {
        Ok(found) if found.is_file() && path.as_path().is_file(rt) => {
            OpenOptions::new().write(true).open(rt, name)?;
            open_beside(rt, path, Some(found.permissions()))
        }
        Ok(_) => Ok((fs::create(rt, name)?, None)),
        Err(error) if error.kind() == ErrorKind::NotFound => open_beside(rt, path, None),
        Err(error) => Err(error),
    }
}

/// Opens a new file beside this path, with these permissions.
fn open_beside<R: rt::Files + Alloc>(
    rt: &R,
    path: PathBuf<R::A>,
    permissions: Option<Permissions>,
) -> io::Result<(R::File, Option<Replacement<R::A>>)> {
    for number in 0..MOST_NAMES {
        let name = format!(in rt.alloc(); ".halfgates-{number}.tmp")?;
        let new = path.as_path().with_file_name(rt.alloc(), name.as_str())?;
        match OpenOptions::new()
            .write(true)
            .create_new(true)
            .open(rt, new.as_path())
        {
            Ok(file) => return permitted(rt, file, Replacement { new, path }, permissions),
            Err(error) if error.kind() == ErrorKind::AlreadyExists => {}
            Err(error) => return Err(error),
        }
    }
    Err(ErrorKind::AlreadyExists.into())
}

/// A new file with these permissions. Where it can't have them, it is removed.
fn permitted<R: rt::Files + Alloc>(
    rt: &R,
    file: R::File,
    replacement: Replacement<R::A>,
    permissions: Option<Permissions>,
) -> io::Result<(R::File, Option<Replacement<R::A>>)> {
    if let Some(permissions) = permissions {
        if let Err(error) = file.set_permissions(permissions) {
            replacement.remove(rt);
            return Err(error);
        }
    }
    Ok((file, Some(replacement)))
}

/// The path that a name leads to by links, unless it is a name of standard output.
fn linked_path<R: rt::Files + Alloc>(rt: &R, name: &str) -> io::Result<Option<PathBuf<R::A>>> {
    let mut path = PathBuf::from_str(rt.alloc(), name)?;
    for _ in 0..MOST_LINKS {
        if is_standard_output(rt, path.as_path())? {
            return Ok(None);
        }
        let Some(target) = present(fs::read_link(rt, path.as_path()))? else {
            return Ok(Some(path));
        };
        path = folder_of(path.as_path()).join(rt.alloc(), target.as_path())?;
    }
    Err(ErrorKind::FilesystemLoop.into())
}

/// Whether the path is that of standard output among the files that this process has open.
fn is_standard_output<R: rt::Files + Alloc>(rt: &R, path: Path<'_>) -> io::Result<bool> {
    if path.file_name() != Some(STANDARD_OUTPUT) {
        return Ok(false);
    }
    for folder in OPEN_FILES {
        if is_one_file(rt, folder_of(path).as_str(), folder)? {
            return Ok(true);
        }
    }
    Ok(false)
}

/// The folder that a path's file is in.
fn folder_of(path: Path<'_>) -> Path<'_> {
    match path.parent() {
        Some(folder) if !folder.as_str().is_empty() => folder,
        _ => Path::new("."),
    }
}

/// Whether both names are there, and of one file.
fn is_one_file<R: rt::Files + Alloc>(rt: &R, name: &str, other: &str) -> io::Result<bool> {
    let Some(path) = present(fs::canonicalize(rt, name))? else {
        return Ok(false);
    };
    let Some(other) = present(fs::canonicalize(rt, other))? else {
        return Ok(false);
    };
    Ok(path.as_path().as_str() == other.as_path().as_str())
}

/// What a call on a name returns, or `None` where the name is none for it. Want of memory is an error.
fn present<T>(outcome: io::Result<T>) -> io::Result<Option<T>> {
    match outcome {
        Ok(found) => Ok(Some(found)),
        Err(error) if error.kind() == ErrorKind::OutOfMemory => Err(error),
        Err(_) => Ok(None),
    }
}
