ghost use Rattle.std.specs.Prelude.{◌≤◌, length};
ghost use Rattle.bmp_specs.specs.Address.{IsAddressPrefix};
ghost use Rattle.rov_table.specs.Index.{IsNested, IsNearest, NoneAfter};

use crate::vrp::Vrp;
use ip_prefix::Prefix;

/// Finds the last entry before the place `from` that contains a prefix, and gives the place after it, or 0 where there is
/// none. None before `from` is after the prefix. Each step goes from an entry to one that contains it.
pub(crate) fn nearest(sorted: &[Vrp], parents: &[usize], from: usize, prefix: &Prefix) -> usize
    requires nested { IsNested sorted.now parents.now }
    requires exact { IsAddressPrefix prefix.now }
    requires within { from ≤ length parents.now }
    requires before { NoneAfter sorted.now prefix.now from }
    requires whole { length parents.now ≤ length sorted.now }
    ensures { IsNearest sorted.now from prefix.now result }
{
    let mut left = from;
    while left > 0 {
        let at = left - 1;
        if sorted[at].prefix.contains(prefix) {
            return left;
        }
        left = parents[at];
    }
    0
}
