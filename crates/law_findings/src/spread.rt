//! How far values spread.

ghost use Rattle.std.specs.Prelude.{◌≡◌, ◌↔◌, IfSome, IsNone, IsPermutation, IsSorted, length};
ghost use Rattle.std.specs.Ordering.{nat_cmp};
ghost use Rattle.law_findings.specs.Spread.{IsSpread};

use crate::words::Spread;

/// The median and the greatest of these values, which are put in order; of an even count the upper one of the two in the middle. None
/// of no value.
pub fn spread_of(values: &mut [u64]) -> Option<Spread>
    ensures order { IsSorted nat_cmp values.new }
    ensures same { IsPermutation values.old values.new }
    ensures nothing { IsNone result ↔ (length values.old ≡ 0) }
    ensures spread { IfSome result (λ s. IsSpread s values.new) }
{
    values.sort_unstable();
    let median = *values.get(values.len() / 2)?;
    let most = *values.last()?;
    Some(Spread {
        count: values.len() as u64,
        median,
        most,
    })
}
