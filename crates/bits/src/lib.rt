// One action's bit in a word of 32: tested, set and cleared by a shift and a mask. Words of 64 are in `slots`.
#![tactic(auto)]

pub mod slots;

ghost use Rattle.std.specs.Prelude.{◌≡◌, ◌<◌};
ghost use Rattle.bits.specs.Bits.{has_bit, set_bit, clear_bit};

// Whether bit k of w is set.
pub fn has_bit(w: u32, k: u32) -> bool
    requires { k < 32 }
    ensures { result ≡ has_bit w k }
{
    (w >> k) & 1 == 1
}

// w with bit k set, and every other bit as it was.
pub fn set_bit(w: u32, k: u32) -> u32
    requires { k < 32 }
    ensures { result ≡ set_bit w k }
{
    w | 1 << k
}

// w with bit k clear, and every other bit as it was.
pub fn clear_bit(w: u32, k: u32) -> u32
    requires { k < 32 }
    ensures { result ≡ clear_bit w k }
{
    w & !(1 << k)
}
