// Amounts added up.
ghost use Rattle.std.specs.Prelude.{◌≡◌, ℕ, ◌^◌, ◌<◌, ◌≤◌, length, get_or, slice_index_or};
ghost use Rattle.amounts.specs.Sums.{sums, whole, Within};

use crate::amount::Amount;

// The sum of amounts, from zero. Of at most 4,096 amounts with figures within 2 ^ 50 it loses nothing: its figures are the exact sums.
pub fn sum_of<M: Amount>(amounts: &[M]) -> M
    ensures value { result ≡ sums M.algebra (λ i. get_or amounts.now i M.algebra.zero) (length amounts.now) }
    ensures exact { (k : ℕ) → length amounts.now ≤ 4096 → ((i : ℕ) → i < length amounts.now → Within (2 ^ 50) (M.figure (slice_index_or amounts.now i M.algebra.zero) k)) → M.figure result k ≡ sums whole (λ i. M.figure (slice_index_or amounts.now i M.algebra.zero) k) (length amounts.now) }
{
    let mut sum = M::nothing();
    for amount in amounts {
        sum = sum.add(*amount);
    }
    sum
}
