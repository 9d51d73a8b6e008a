// The bits of a word.
ghost use Rattle.std.specs.Prelude.{◌≡◌, ℕ, ◌^◌, ◌<◌, ◌≤◌, if◌then◌else◌, ◌==◌, nat_eq};
ghost use Rattle.bank.specs.Banks.{bit};

// Kept: each function requires `p < 32`, since the shift asks it: a struct of a bit's number with that as a ghost field would have to
// be made before each call, where the same is asked.

// The bit `p` of `w`.
pub fn bit_at(w: u32, p: usize) -> u32
    requires { p < 32 }
    ensures { result ≡ bit w p }
{
    (w >> p) & 1
}

// Whether the bit `p` of `w` is set.
pub fn has_bit(w: u32, p: usize) -> bool
    requires { p < 32 }
    ensures { result ≡ (bit w p == 1) }
{
    bit_at(w, p) == 1
}

// The word `w` with its bit `p` set.
pub fn with_bit(w: u32, p: usize) -> u32
    requires { p < 32 }
    ensures bits { (q : ℕ) → bit result q ≡ (if nat_eq q p then 1 else bit w q) }
    ensures inside { (n : ℕ) → p < n → w < 2 ^ n → result < 2 ^ n }
{
    w | (1 << p)
}

// The word `w` with its bit `p` cleared.
pub fn without_bit(w: u32, p: usize) -> u32
    requires { p < 32 }
    ensures bits { (q : ℕ) → bit result q ≡ (if nat_eq q p then 0 else bit w q) }
    ensures inside { result ≤ w }
{
    w & !(1 << p)
}
