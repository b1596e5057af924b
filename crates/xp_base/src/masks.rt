// A word of 64 bits as a set of partitions: bit q stands for partition q.
ghost use Rattle.std.specs.Prelude.{◌≡◌, ◌≢◌, ◌-◌, ◌<◌, ◌≤◌, ◌^◌, ℕ, true, false};
ghost use Rattle.xp_base.specs.declared.layout.TheConstants.{PARTS};
ghost use Rattle.xp_base.specs.Masks.{has};

use crate::ids::PartId;
use crate::layout::PARTS;

/// The mask with the bit of one partition.
#[tactic(auto, using(crate::proofs::Masking::one_bit))]
pub fn bit(q: PartId) -> u64
    ensures { result ≡ 2 ^ q }
{
    1u64 << q.get()
}

/// The mask of all partitions below a count.
#[tactic(auto, using(crate::proofs::Masking::one_bit))]
pub fn all_below(count: u8) -> u64
    requires { count ≤ PARTS }
    ensures { result ≡ 2 ^ count - 1 }
{
    if count == PARTS {
        u64::MAX
    } else {
        (1u64 << count) - 1
    }
}

/// Whether a partition is in the set.
pub fn contains(mask: u64, q: PartId) -> bool
    ensures { result ≡ has mask q }
{
    (mask >> q.get()) % 2 == 1
}

/// The set with a partition put in.
#[tactic(auto, using(crate::proofs::Masking::has_set, crate::proofs::Masking::has_set_other))]
pub fn with(mask: u64, q: PartId) -> u64
    ensures here { has result q ≡ true }
    ensures others { (i : ℕ) → i < PARTS → i ≢ q → has result i ≡ has mask i }
{
    mask | 1u64 << q.get()
}

/// The set with a partition taken out.
#[tactic(auto, using(crate::proofs::Masking::has_clear, crate::proofs::Masking::has_clear_other))]
pub fn without(mask: u64, q: PartId) -> u64
    ensures here { has result q ≡ false }
    ensures others { (i : ℕ) → i < PARTS → i ≢ q → has result i ≡ has mask i }
{
    mask & !(1u64 << q.get())
}
