// Subject lines: RFC 2047's encoded words over UTF-7. Definitions, laws, and the test that tells Q text's bytes apart.
#![tactic(auto)]

ghost use Rattle.std.specs.Prelude.{◌≡◌};
ghost use Rattle.encoded_word.specs.Writing.{itself};

// In Q text the byte stands for itself.
pub fn is_itself(b: u8) -> bool
    ensures { result ≡ itself b }
{
    (33 <= b) & (b <= 126) & (b != b'=') & (b != b'?') & (b != b'_')
}
