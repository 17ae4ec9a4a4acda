ghost use Rattle.std.specs.Prelude.{◌≡◌, ◌↔◌, ◌≤◌, length, IsTrue};
ghost use Rattle.std.specs.List.{All};
ghost use Rattle.std.specs.List.Sorted.{IsSortedByKey};
ghost use Rattle.bmp_specs.specs.Address.{IsAddressPrefix};
ghost use Rattle.bmp_specs.specs.Orders.{prefix_cmp};
ghost use Rattle.rov_table.specs.Index.{IsNested, NoneAfter, NoneContains};
ghost use Rattle.rov_table.specs.Verdicts.{Allows, IsVerdict, verdict_of};

use crate::nearest::nearest;
use crate::table::VrpTable;
use crate::vrp::{Verdict, Vrp};
use ip_prefix::Prefix;

// Whether a VRP that covers a prefix matches a route to it with this origin.
fn allows(vrp: &Vrp, prefix: &Prefix, origin: Option<u32>) -> bool
    ensures { IsTrue result ↔ Allows vrp.now prefix.now origin }
{
    match origin {
        None => false,
        Some(asn) => prefix.bits() <= vrp.max && vrp.asn != 0 && asn == vrp.asn,
    }
}

// How many entries aren't after a prefix.
fn count_up_to(sorted: &[Vrp], prefix: &Prefix) -> usize
    requires all_exact { All (λ v. IsAddressPrefix v.prefix) sorted.now }
    requires exact { IsAddressPrefix prefix.now }
    requires ordered { IsSortedByKey (λ v. v.prefix) prefix_cmp sorted.now }
    ensures within { result ≤ length sorted.now }
    ensures before { NoneAfter sorted.now prefix.now result }
    ensures none { NoneContains sorted.now prefix.now result (length sorted.now) }
{
    sorted.partition_point(|vrp| vrp.prefix <= *prefix)
}

// The verdict by entries in prefix order and their parents.
fn judge(sorted: &[Vrp], parents: &[usize], prefix: &Prefix, origin: Option<u32>) -> Verdict
    requires nested { IsNested sorted.now parents.now }
    requires exact { IsAddressPrefix prefix.now }
    requires whole { length parents.now ≡ length sorted.now }
    ensures { IsVerdict sorted.now prefix.now origin result }
{
    let count = count_up_to(sorted, prefix);
    let mut left = nearest(sorted, parents, count, prefix);
    if left == 0 {
        return Verdict::NotFound;
    }
    while left > 0 {
        if allows(&sorted[left - 1], prefix, origin) {
            return Verdict::Valid;
        }
        left = nearest(sorted, parents, parents[left - 1], prefix);
    }
    Verdict::Invalid
}

/// What the VRPs of a table say of a route to a prefix with this origin AS, `None` where it has none (RFC 6811,
/// section 2). A VRP covers the route where it contains the prefix, and matches it where besides the prefix has at most
/// its maximum length and the origin is its AS, which isn't 0. `Valid`: some VRP matches. `Invalid`: some covers, and
/// none matches. `NotFound`: none covers.
///
/// It takes no memory. After one search by halves it takes at most one step for each VRP that contains the last one not
/// after the prefix in the order of prefixes. Those that cover the route are among these. VRPs of one prefix take a step
/// each, so a file with very many of one prefix makes the verdicts there slow.
pub fn verdict(table: &VrpTable, prefix: &Prefix, origin: Option<u32>) -> Verdict
    ensures as_sets { IsVerdict table.now prefix.now origin result }
    ensures by_tests { result ≡ verdict_of table.now prefix.now origin }
{
    // For the proof: a prefix has no bits past its length.
    let _bits = prefix.bits();
    judge(
        table.sorted.as_slice(),
        table.parents.as_slice(),
        prefix,
        origin,
    )
}
