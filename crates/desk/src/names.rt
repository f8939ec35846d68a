// Names of files.
ghost use Rattle.std.specs.Prelude.{◌≤◌, ◌≡◌, ◌+◌, length};

use crate::files::PATH_MAX;

const LETTERS: [u8; 64] = *b"abcdefghijklmnopqrstuvwxyzABCDEFGHIJKLMNOPQRSTUVWXYZ0123456789aA";

// The folder of a name, with its slash: none where it has none.
pub fn folder(name: &[u8]) -> &[u8]
    ensures { length result.now ≤ length name.now }
{
    let end = name.iter().rposition(|&b| b == b'/');
    &name[..end.map_or(0, |last| last + 1)]
}

// A letter or digit for a random byte.
fn letter(dice: u8) -> u8 {
    LETTERS[usize::from(dice & 63)]
}

// Puts bytes into a path at a place.
fn put_at(path: &mut [u8], at: usize, bytes: &[u8])
    requires { at + length bytes.now ≤ length path.old }
    ensures { length path.new ≡ length path.old }
{
    path[at..at + bytes.len()].copy_from_slice(bytes);
}

// Spells the name of a new file in a folder, and says how long it is.
pub fn spell_new(folder: &[u8], dice: [u8; 6], path: &mut [u8; PATH_MAX]) -> usize
    requires { length folder.now ≤ 4080 }
    ensures { result ≡ length folder.now + 15 }
{
    let n = folder.len();
    put_at(path, 0, folder);
    put_at(path, n, b"desk.new.");
    put_at(path, n + 9, &dice.map(letter));
    n + 15
}
