// Numbers as lists of bits: definitions in specs/, laws in proofs/, and the power of two that code computes with.
#![tactic(auto)]

ghost use Rattle.std.specs.Prelude.{◌≡◌, ◌%◌, ◌^◌};

// The power of two, for any exponent what it leaves by 32.
pub fn power(k: u32) -> u32
    ensures { result ≡ 2 ^ (k % 32) }
{
    1 << (k % 32)
}
