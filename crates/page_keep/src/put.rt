// Parts of a page file put into an output, from a place on; each gives the place behind it.
ghost use Rattle.std.specs.Prelude.{◌≡◌, [], ◌∷◌, ◌++◌, ◌+◌, ◌*◌, ◌<◌, ◌≤◌, ◌^◌, length};
ghost use Rattle.std.proofs.lemmas.List.Edits.{sets};
ghost use Rattle.answer.specs.Bytes.{bytes as text};
ghost use Rattle.parsing.specs.Digits.{digit, digits, groups, LF};
ghost use Rattle.page_file.specs.Inner.{form_if};
ghost use Rattle.page_keep.specs.Inner.{decimal};

// These bytes. A loop, since the archive for C asks for memcpy and memset alone, and `copy_from_slice` calls memmove
// here.
pub fn put_bytes(bytes: &[u8], out: &mut [u8], at: usize) -> usize
    requires { at + length bytes.now ≤ length out.old }
    ensures { (result ≡ at + length bytes.now)
        × (out.new ≡ sets out.old at bytes.now) }
{
    for i in 0..bytes.len() {
        out[at + i] = bytes[i];
    }
    at + bytes.len()
}

// The digit of a value.
fn digit_of(d: u8) -> u8
    requires { d < 16 }
    ensures { result ≡ digit d }
{
    if d < 10 {
        return 48 + d;
    }
    55 + d
}

// The K lowest digits of a number, the highest first.
fn put_digits<const BASE: usize, const K: usize>(n: usize, out: &mut [u8], at: usize) -> usize
    requires { (at + K ≤ length out.old) × (0 < BASE) × (BASE ≤ 16) }
    ensures { (result ≡ at + K) × (out.new ≡ sets out.old at (digits BASE K n)) }
{
    let mut rest = n;
    for k in (0..K).rev() {
        out[at + k] = digit_of((rest % BASE) as u8);
        rest /= BASE;
    }
    at + K
}

// Bytes as pairs of hex digits.
fn put_pairs(bytes: &[u8], out: &mut [u8], at: usize) -> usize
    requires { at + length bytes.now * 2 ≤ length out.old }
    ensures { (result ≡ at + length bytes.now * 2)
        × (out.new ≡ sets out.old at (groups 2 bytes.now)) }
{
    for (i, b) in bytes.iter().enumerate() {
        put_digits::<16, 2>(*b as usize, &mut *out, at + i * 2);
    }
    at + bytes.len() * 2
}

// Words as groups of eight hex digits.
fn put_groups(words: &[u32], out: &mut [u8], at: usize) -> usize
    requires { at + length words.now * 8 ≤ length out.old }
    ensures { (result ≡ at + length words.now * 8)
        × (out.new ≡ sets out.old at (groups 8 words.now)) }
{
    for (i, w) in words.iter().enumerate() {
        put_digits::<16, 8>(*w as usize, &mut *out, at + i * 8);
    }
    at + words.len() * 8
}

// A key with its '=', a number, and LF.
pub fn put_number(two: bool, key: &[u8], n: usize, out: &mut [u8], at: usize) -> usize
    requires { at + (length key.now + (form_if two).width + 1) ≤ length out.old }
    ensures { (result ≡ at + (length key.now + (form_if two).width + 1))
        × (out.new ≡ sets out.old at (key.now ++ (decimal two n ++ LF))) }
{
    let value = put_bytes(key, &mut *out, at);
    let end = if two {
        put_digits::<10, 7>(n, &mut *out, value)
    } else {
        put_digits::<10, 5>(n, &mut *out, value)
    };
    out[end] = b'\n';
    end + 1
}

// A key with its '=', bytes, and LF.
pub fn put_arrived(bytes: &[u8], out: &mut [u8], at: usize) -> usize
    requires { at + (length bytes.now * 2 + 9) ≤ length out.old }
    ensures { (result ≡ at + (length bytes.now * 2 + 9))
        × (out.new ≡ sets out.old at (text "arrived=" ++ (groups 2 bytes.now ++ LF))) }
{
    let value = put_bytes(b"arrived=", &mut *out, at);
    let end = put_pairs(bytes, &mut *out, value);
    out[end] = b'\n';
    end + 1
}

pub fn put_words(key: &[u8], words: &[u32], out: &mut [u8], at: usize) -> usize
    requires { at + (length key.now + length words.now * 8 + 1) ≤ length out.old }
    ensures { (result ≡ at + (length key.now + length words.now * 8 + 1))
        × (out.new ≡ sets out.old at (key.now ++ (groups 8 words.now ++ LF))) }
{
    let value = put_bytes(key, &mut *out, at);
    let end = put_groups(words, &mut *out, value);
    out[end] = b'\n';
    end + 1
}
