//! Files by their names, and the credential caches of a directory.

use std::fs::{File, Files};
use std::io::{Error, ErrorKind, Read};
use std::str::from_utf8;
use std::{fs, io};

/// How many octets of the names of a directory are read at once.
const NAMES_SIZE: usize = 4096;

/// Returns the text of a path, or the fault that it is none: `std` opens names in UTF-8 alone.
fn text_of(path: &[u8]) -> io::Result<&str> {
    from_utf8(path).map_err(|_| Error::from(ErrorKind::InvalidFilename))
}

/// Opens the file of a path for reading.
pub(crate) fn open(rt: &HostRuntime, path: &[u8]) -> io::Result<File> {
    File::open(rt, text_of(path)?)
}

/// Opens the regular file of a path, or what a link leads to, for reading. Anything else, as a pipe
/// that someone has put among the caches of a directory, is not opened: that may never return.
pub(crate) fn open_regular(rt: &HostRuntime, path: &[u8]) -> io::Result<File> {
    if fs::metadata(rt, text_of(path)?)?.is_file() {
        open(rt, path)
    } else {
        Err(Error::new(ErrorKind::InvalidInput, "not a regular file"))
    }
}

/// Appends the names of credential caches, which begin with `tkt`, among those that a directory
/// was read as: each is ended by a NUL.
fn put_caches(rt: &HostRuntime, directory: &[u8], caches: &mut Vec<Vec<u8>>) -> io::Result<()> {
    for name in directory.split(|octet| *octet == 0) {
        if name.starts_with(b"tkt") {
            caches.push(Vec::from_slice(rt.alloc(), name)?)?;
        }
    }
    Ok(())
}

/// Returns the names in a directory that are those of credential caches: they begin with `tkt`, and
/// may have any octets. They are in order of octets. No other name is looked at.
pub(crate) fn caches(rt: &HostRuntime, path: &[u8]) -> io::Result<Vec<Vec<u8>>> {
    // The slash makes the system follow a link to a directory.
    let path = format!(in rt.alloc(); "{}/", text_of(path)?)?;
    let mut directory = rt.open_dir(path.as_str())?;
    let mut caches = Vec::new(rt.alloc());
    let mut names = [0; NAMES_SIZE];
    for _ in 0..u64::MAX {
        let count = directory.read(&mut names)?;
        if count == 0 {
            break;
        }
        put_caches(rt, &names[..count], &mut caches)?;
    }
    caches.sort()?;
    Ok(caches)
}
