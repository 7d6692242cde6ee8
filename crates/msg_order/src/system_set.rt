#![tactic(auto, using(crate::proofs::SystemSets::of_sets), unfolding(crate::specs::inner::SystemSet::has))]

ghost use Rattle.std.specs.Prelude.{◌≡◌, ◌==◌, ◌||◌, ◌&&◌, not, ℕ, ◌<◌, ◌≤◌, ◌↔◌, true, false, IsTrue};

use msg_world::MAX_SYSTEMS;

/// How many words have a bit for each system.
const WORDS: usize = MAX_SYSTEMS / 64;

const _: () = prove!(MAX_SYSTEMS % 64 == 0);

/// A set of systems, by their numbers below `MAX_SYSTEMS`.
#[derive(Clone, Copy, Debug)]
pub struct SystemSet {
    words: [u64; WORDS],
}

impl SystemSet {
    ghost use Rattle.msg_world.specs.Prelude.{has_bit};
    ghost use Rattle.msg_order.specs.inner.SystemSet.{has, meets};

    /// The set without systems.
    pub fn empty() -> Self
        ensures { (k : ℕ) → has result k ≡ false }
    {
        SystemSet { words: [0; WORDS] }
    }

    /// The numbers below 64 whose bit is set.
    pub fn of_bits(bits: u64) -> Self
        ensures same { (k : ℕ) → has result k ≡ has_bit bits k }
        ensures below { (k : ℕ) → has result k ≡ true → k < 64 }
    {
        let mut set = SystemSet::empty();
        set.words[0] = bits;
        set
    }

    /// Whether system `k` is in it.
    pub fn contains(&self, k: usize) -> bool
        requires { k < MAX_SYSTEMS }
        ensures { result ≡ has self.now k }
    {
        (self.words[k / 64] >> (k % 64)) & 1 == 1
    }

    /// Adds system `k`.
    pub fn insert(&mut self, k: usize)
        requires { k < MAX_SYSTEMS }
        ensures { (j : ℕ) → has self.new j ≡ (j == k || has self.old j) }
    {
        self.words[k / 64] |= 1u64 << (k % 64);
    }

    /// Takes system `k` out.
    pub fn remove(&mut self, k: usize)
        requires { k < MAX_SYSTEMS }
        ensures { (j : ℕ) → has self.new j ≡ (not (j == k) && has self.old j) }
    {
        self.words[k / 64] &= !(1u64 << (k % 64));
    }

    /// The first system in it from this number on; `MAX_SYSTEMS` if there is none.
    pub fn next(&self, from: usize) -> usize
        requires { from ≤ MAX_SYSTEMS }
        ensures from_there { from ≤ result }
        ensures at_most { result ≤ MAX_SYSTEMS }
        ensures is_in { result < MAX_SYSTEMS → has self.now result ≡ true }
        ensures none_before { (k : ℕ) → from ≤ k → k < result → has self.now k ≡ false }
    {
        let mut k = from;
        'words: while k < MAX_SYSTEMS {
            let rest = self.words[k / 64] >> (k % 64);
            if rest != 0 {
                return k + rest.trailing_zeros() as usize;
            }
            k = (k / 64 + 1) * 64;
        }
        MAX_SYSTEMS
    }

    /// Adds all systems of the other set.
    pub fn union_with(&mut self, other: &SystemSet)
        ensures { (j : ℕ) → has self.new j ≡ (has self.old j || has other.now j) }
    {
        for i in 0..WORDS {
            self.words[i] |= other.words[i];
        }
    }

    /// Takes all systems of the other set out.
    pub fn remove_all(&mut self, other: &SystemSet)
        ensures { (j : ℕ) → has self.new j ≡ (has self.old j && not (has other.now j)) }
    {
        for i in 0..WORDS {
            self.words[i] &= !other.words[i];
        }
    }

    /// Whether a system is in both.
    pub fn meets(&self, other: &SystemSet) -> bool
        ensures { result ≡ meets self.now other.now }
    {
        for i in 0..WORDS {
            if self.words[i] & other.words[i] != 0 {
                return true;
            }
        }
        false
    }

    /// Whether no system is in it.
    #[tactic(auto, using(crate::proofs::SystemSets::of_sets))]
    pub fn is_empty(&self) -> bool
        ensures { IsTrue result ↔ ((k : ℕ) → has self.now k ≡ false) }
    {
        !self.meets(self)
    }
}
