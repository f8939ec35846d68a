// Bytes and words of a file by their hex digits.
ghost use Rattle.std.specs.Prelude.{◌≡◌, ◌++◌, ◌+◌, ◌-◌, ◌*◌, ◌/◌, ◌%◌, ◌<◌, ◌≤◌, ◌^◌, length, take, drop, replicate};
ghost use Rattle.answer.specs.Output.{filled};
ghost use Rattle.scan.specs.Inner.{nibble, hex_at, hexes_at};

fn nibble_of(b: u8) -> u8
    ensures { (result ≡ nibble b) × (result < 16) }
{
    (b % 16 + b / 64 * 9) % 16
}

fn wide(b: u8) -> u32
    ensures { (result ≡ b) × (result < 256) }
{
    b as u32
}

// The byte of two digits.
pub fn byte_at(s: &[u8], at: usize) -> u8
    requires { at + 2 ≤ length s.now }
    ensures { result ≡ hex_at s.now at 2 }
{
    nibble_of(s[at]) * 16 + nibble_of(s[at + 1])
}

// The word of eight digits.
pub fn word_at(s: &[u8], at: usize) -> u32
    requires { at + 8 ≤ length s.now }
    ensures { result ≡ hex_at s.now at 8 }
{
    let mut v: u32 = 0;
    for k in 0..8 {
        v = v * 16 + wide(nibble_of(s[at + k]));
    }
    v
}

// The bytes of digits from a place on go to the front of a buffer. Its elements and its reader differ from those of
// `read_words`: a generic function would be no plainer than the one line.
pub fn read_bytes(s: &[u8], from: usize, n: usize, out: &mut [u8])
    requires { (from + n * 2 ≤ length s.now) × (n ≤ length out.old) }
    ensures { out.new ≡ filled (hexes_at s.now from 2 n) out.old }
{
    for i in 0..n {
        out[i] = byte_at(s, from + i * 2);
    }
}

// The words of digits from a place on go to the front of a buffer.
pub fn read_words(s: &[u8], from: usize, n: usize, out: &mut [u32])
    requires { (from + n * 8 ≤ length s.now) × (n ≤ length out.old) }
    ensures { out.new ≡ filled (hexes_at s.now from 8 n) out.old }
{
    for i in 0..n {
        out[i] = word_at(s, from + i * 8);
    }
}
