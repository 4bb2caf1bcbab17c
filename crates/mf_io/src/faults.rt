//! Counts of faults.
ghost use Rattle.std.specs.Prelude.{◌≡◌, ◌≤◌};
ghost use Rattle.mf_io.specs.Faults.{next_count, Rose};

/// A count after one more fault. At `u64::MAX` it stays.
pub(crate) fn count_up(count: u64) -> u64
    ensures value { result ≡ next_count count }
    ensures later { count ≤ result }
    ensures rose { Rose count result }
{
    count.saturating_add(1)
}
