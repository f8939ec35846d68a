// What stands at a name that is saved to, as the system tells it without following a link.
use crate::replies;
use std::fs::{FileType, Metadata, OpenOptions};
use std::io::ErrorKind;
use std::os::unix::fs::{FileTypeExt, MetadataExt, PermissionsExt};
use std::rt::HostRuntime;
use std::{fs, io};

// The system's number for a file that is a running program.
const ETXTBSY: i32 = 26;

// A file that may be replaced.
#[derive(Clone, Copy)]
pub struct Old {
    pub owner: u32,
    pub group: u32,
    pub mode: u32,
}

// What a save leaves alone, and that has been said.
#[derive(Clone, Copy)]
pub struct Barred;

// Says what is at a name, where that is no regular file.
fn refuse_kind(rt: &HostRuntime, name: &[u8], kind: FileType) {
    if kind.is_dir() {
        replies::refuse(rt, name, b"is a directory: save to another name");
    } else if kind.is_symlink() {
        replies::refuse(
            rt,
            name,
            b"is a symbolic link: save to the name of the file that it leads to",
        );
    } else if kind.is_fifo() {
        replies::refuse(rt, name, b"is a named pipe: save to another name");
    } else if kind.is_socket() {
        replies::refuse(rt, name, b"is a socket: save to another name");
    } else {
        replies::refuse(rt, name, b"is a device: save to another name");
    }
}

// Whether the system lets the file be opened for writing, which changes nothing of it. A program that is running may be
// replaced.
fn may_write(rt: &HostRuntime, path: &str) -> io::Result<()> {
    match OpenOptions::new().write(true).open(rt, path) {
        Ok(_) => Ok(()),
        Err(e) if e.raw_os_error() == Some(ETXTBSY) => Ok(()),
        Err(e) => Err(e),
    }
}

// What is at a name that has been looked at: only a regular file with no other name, which may be written, is replaced.
fn judged(rt: &HostRuntime, path: &str, seen: &Metadata) -> Result<Option<Old>, Barred> {
    let name = path.as_bytes();
    let kind = seen.file_type();
    if !kind.is_file() {
        refuse_kind(rt, name, kind);
        return Err(Barred);
    }
    if 1 < seen.nlink() {
        replies::refuse(
            rt,
            name,
            b"has other names too (hard links): save to another name",
        );
        return Err(Barred);
    }
    if seen.permissions().readonly() {
        replies::refuse(rt, name, b"is read-only: save to another name");
        return Err(Barred);
    }
    if let Err(e) = may_write(rt, path) {
        replies::fail(rt, name, e);
        return Err(Barred);
    }
    Ok(Some(Old {
        owner: seen.uid(),
        group: seen.gid(),
        mode: seen.mode(),
    }))
}

// What is at a name that is saved to: nothing, or a file that may be replaced.
pub fn old_at(rt: &HostRuntime, path: &str) -> Result<Option<Old>, Barred> {
    match fs::symlink_metadata(rt, path) {
        Ok(seen) => judged(rt, path, &seen),
        Err(e) if e.kind() == ErrorKind::NotFound => Ok(None),
        Err(e) => {
            replies::fail(rt, path.as_bytes(), e);
            Err(Barred)
        }
    }
}
