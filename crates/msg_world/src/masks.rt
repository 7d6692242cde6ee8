// Masks of 64 bits, one for each number below 64.
#![tactic(auto, using(crate::proofs::Bits::of_masks))]

ghost use Rattle.std.specs.Prelude.{◌≡◌, ◌≢◌, ◌==◌, ◌||◌, ◌&&◌, not, ℕ, ◌<◌, ◌↔◌, IsTrue};
ghost use Rattle.msg_world.specs.{Prelude.has_bit, inner.Masks.ShareBit, inner.Masks.Collide, inner.Masks.IsBelow};

/// Whether bit `k` is set.
pub fn has(mask: u64, k: u32) -> bool
    requires { k < 64 }
    ensures { result ≡ has_bit mask k }
{
    (mask >> k) & 1 == 1
}

/// The mask with bit `k` set.
pub fn with_bit(mask: u64, k: u32) -> u64
    requires { k < 64 }
    ensures { (j : ℕ) → has_bit result j ≡ (j == k || has_bit mask j) }
{
    mask | (1 << k)
}

/// The bits of a mask that aren't taken.
pub fn without(mask: u64, taken: u64) -> u64
    ensures { (j : ℕ) → has_bit result j ≡ (has_bit mask j && not (has_bit taken j)) }
{
    mask & !taken
}

/// Whether a bit is set in both.
pub fn share_bit(a: u64, b: u64) -> bool
    ensures { IsTrue result ↔ ShareBit a b }
{
    a & b != 0
}

/// Whether a bit that one of them writes is read or written by the other.
pub fn collide(read: u64, write: u64, other_read: u64, other_write: u64) -> bool
    ensures { IsTrue result ↔ Collide read write other_read other_write }
{
    share_bit(write, other_read | other_write) | share_bit(other_write, read | write)
}

/// Whether no bit from `n` on is set.
pub fn is_below(mask: u64, n: u32) -> bool
    ensures { IsTrue result ↔ IsBelow mask n }
{
    n >= 64 || mask >> n == 0
}

/// The lowest bit that is set.
pub fn lowest(mask: u64) -> u32
    requires some { mask ≢ 0 }
    ensures number { result < 64 }
    ensures is_set { IsTrue (has_bit mask result) }
    ensures none_below { (j : ℕ) → j < result → IsTrue (not (has_bit mask j)) }
{
    mask.trailing_zeros()
}

/// The mask with bit `k` cleared.
pub fn without_bit(mask: u64, k: u32) -> u64
    requires { k < 64 }
    ensures bits { (j : ℕ) → has_bit result j ≡ (not (j == k) && has_bit mask j) }
    ensures less { IsTrue (has_bit mask k) → result < mask }
{
    mask & !(1 << k)
}
