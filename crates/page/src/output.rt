// Bytes given as they are.
ghost use Rattle.std.specs.Prelude.{◌≡◌};
ghost use Rattle.answer.specs.Output.{leaves, deliver};

use answer::{Answer, Refusal, Refused};

// 9, or the bytes at the front of the output. A loop, since the archive for C asks for memcpy and memset alone, and
// `copy_from_slice` calls memmove here.
pub fn give(bytes: &[u8], out: &mut [u8]) -> Answer
    ensures { leaves result out.new ≡ deliver bytes.now out.old }
{
    if out.len() < bytes.len() {
        return Err(Refused(Refusal::NoRoom, bytes.len()));
    }
    for i in 0..bytes.len() {
        out[i] = bytes[i];
    }
    Ok(bytes.len())
}
