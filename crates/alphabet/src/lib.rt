// Set B: the letters of Base64 (RFC 2045) and their values, as the rule that they follow: capitals, small letters, digits, two signs.
// The first sign is '+' in every alphabet, and an alphabet is given by the second, its last letter: '/' in UTF-7, ',' in mailbox names.
#![tactic(auto)]

ghost use Rattle.std.specs.Prelude.{◌≡◌};
ghost use Rattle.alphabet.specs.Letters.{value_of, letter_of};

// The value of a letter, or 64 for a byte that is none. One value is chosen by tests in the rule's order and no arm returns:
// so it compiles to selects, with no branch.
#[tactic(auto, unfolding(crate::specs::Letters::value_of, crate::specs::Letters::within))]
pub fn value_of(last: u8, b: u8) -> u32
    ensures { result ≡ value_of last b }
{
    let mut value: u32 = 64;
    // capitals: 0 to 25
    if b'A' <= b && b <= b'Z' {
        value = b as u32 - b'A' as u32;
    }
    // small letters: 26 to 51
    if b'a' <= b && b <= b'z' {
        value = b as u32 - b'a' as u32 + 26;
    }
    // digits: 52 to 61
    if b'0' <= b && b <= b'9' {
        value = b as u32 - b'0' as u32 + 52;
    }
    // two signs: 62 and 63
    if b == b'+' {
        value = 62;
    }
    if b == last && value == 64 {
        value = 63;
    }
    value
}

// The letter of a value; any number from 63 on has the last.
#[tactic(auto, unfolding(crate::specs::Letters::letter_of, crate::specs::Letters::within))]
pub fn letter_of(last: u8, x: u32) -> u8
    ensures { result ≡ letter_of last x }
{
    let mut letter = last;
    // capitals: 0 to 25
    if x <= 25 {
        letter = x as u8 + b'A';
    }
    // small letters: 26 to 51
    if 26 <= x && x <= 51 {
        letter = x as u8 - 26 + b'a';
    }
    // digits: 52 to 61
    if 52 <= x && x <= 61 {
        letter = x as u8 - 52 + b'0';
    }
    // two signs: 62 and 63
    if x == 62 {
        letter = b'+';
    }
    letter
}
