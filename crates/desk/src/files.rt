// The letter that is opened, and the files that are saved.
ghost use Rattle.std.specs.Prelude.{◌≤◌, length, IfSome};

use crate::look::{Barred, Old};
use crate::{look, names, replies};
use std::fs::{File, OpenOptions, Permissions};
use std::io::{Error, ErrorKind, Write};
use std::os::unix::fs::{OpenOptionsExt, PermissionsExt, fchown};
use std::random::RandomSource;
use std::rt::HostRuntime;
use std::{fs, io};

// How many bytes a page file may have: as many as there is room for on the stack beside a page.
pub const PAGE_ROOM: usize = 1572864;

// The system takes a name that is shorter.
pub const PATH_MAX: usize = 4096;

// The system's number for a name that is taken.
const EEXIST: i32 = 17;

// How many names a new file is tried under, as mkstemp does.
const TRIES: u32 = 238328;

// Reads a file by its name, and says how many bytes came. One that cannot be read is told of.
pub fn read(rt: &HostRuntime, name: &[u8], buf: &mut [u8]) -> Option<usize>
    ensures { IfSome result (λ n. n ≤ length buf.new) }
{
    let read = whole_file::read(rt, name, buf);
    read.inspect_err(|e| replies::fail(rt, name, *e)).ok()
}

// A mode whose group may do no more than all others may.
fn narrowed(mode: u32) -> u32 {
    (mode & 0o707) | (mode & 0o070 & ((mode & 0o007) << 3))
}

// Gives a new file the owner, the group and the mode of an old one, as far as the system allows. Nobody may read it who
// could not read the old one.
fn liken(file: &File, old: Old) -> io::Result<()> {
    let Old { owner, group, mode } = old;
    if fchown(file, Some(owner), Some(group)).is_ok() {
        return file.set_permissions(Permissions::from_mode(mode & 0o7777));
    }
    if fchown(file, None, Some(group)).is_ok() {
        return file.set_permissions(Permissions::from_mode(mode & 0o777));
    }
    file.set_permissions(Permissions::from_mode(narrowed(mode)))
}

// How a new file is made. One that is to replace another is its owner's alone at first; any other has the mode that the
// system gives.
fn how(old: Option<Old>) -> OpenOptions {
    let mut options = OpenOptions::new();
    options.write(true).create_new(true);
    if old.is_some() {
        options.mode(0o600);
    }
    options
}

// Writes the bytes into a new file, makes it like the one that it is to replace, and waits until it is on its device.
// The file is closed then: what a close says is not known here, and tells no more after a sync.
fn fill(mut file: File, bytes: &[u8], old: Option<Old>) -> io::Result<()> {
    file.write_all(bytes)?;
    if let Some(old) = old {
        liken(&file, old)?;
    }
    file.sync_all()
}

// Waits until the names of a folder have reached the device.
fn sync_folder(rt: &HostRuntime, folder: &[u8]) -> io::Result<()> {
    let name = if folder.is_empty() { b"." } else { folder };
    fs::open(rt, whole_file::path(name)?)?.sync_all()
}

// Fills a new file and renames it into its place. Where its folder cannot be synced it is in its place all the same.
fn finish(
    rt: &HostRuntime,
    file: File,
    new: &str,
    path: &str,
    bytes: &[u8],
    old: Option<Old>,
) -> bool {
    let name = path.as_bytes();
    let put = fill(file, bytes, old).and_then(|()| fs::rename(rt, new, path));
    if let Err(e) = put {
        replies::fail(rt, name, e);
        let _ = fs::remove_file(rt, new);
        return false;
    }
    if let Err(e) = sync_folder(rt, names::folder(name)) {
        replies::fail_at(rt, name, b"saved, but its folder could not be synced", e);
    }
    true
}

// Saves by way of a new file in the folder of the path, under a name that nothing there has; or fails, where no such
// file can be made.
fn put_under(
    rt: &HostRuntime,
    folder: &[u8],
    path: &str,
    bytes: &[u8],
    old: Option<Old>,
) -> io::Result<bool>
    requires { length folder.now ≤ 4080 }
{
    let options = how(old);
    for _ in 0..TRIES {
        let mut dice = [0u8; 6];
        rt.fill_bytes(&mut dice)?;
        let mut room = [0u8; PATH_MAX];
        let n = names::spell_new(folder, dice, &mut room);
        let new = whole_file::path(&room[..n])?;
        match options.open(rt, new) {
            Ok(file) => return Ok(finish(rt, file, new, path, bytes, old)),
            Err(e) if e.kind() == ErrorKind::AlreadyExists => {}
            Err(e) => return Err(e),
        }
    }
    Err(Error::from_raw_os_error(EEXIST))
}

// Writes the whole of a file under a new name, and renames it into place, so that a fault midway loses nothing.
fn put_beside(rt: &HostRuntime, path: &str, bytes: &[u8], old: Option<Old>) -> bool {
    let name = path.as_bytes();
    let folder = names::folder(name);
    if 4080 < folder.len() {
        replies::complain(rt, b"the name of the file is too long");
        return false;
    }
    match put_under(rt, folder, path, bytes, old) {
        Ok(put) => put,
        Err(e) => {
            replies::fail_at(rt, name, b"no new file can be made beside it", e);
            false
        }
    }
}

// What is at the name is looked at, and left alone where it must be.
fn put_over(rt: &HostRuntime, path: &str, bytes: &[u8]) -> bool {
    match look::old_at(rt, path) {
        Ok(old) => put_beside(rt, path, bytes, old),
        Err(Barred) => false,
    }
}

// Saves the bytes under a name, where nothing that stands there would be harmed.
pub fn put(rt: &HostRuntime, name: &[u8], bytes: &[u8]) -> bool {
    if PATH_MAX <= name.len() {
        replies::complain(rt, b"the name of the file is too long");
        return false;
    }
    if name.contains(&0) {
        replies::complain(rt, b"the name of the file has a NUL");
        return false;
    }
    match whole_file::path(name) {
        Ok(path) => put_over(rt, path, bytes),
        Err(e) => {
            replies::fail(rt, name, e);
            false
        }
    }
}
