ghost use Rattle.std.specs.Prelude.{◌≡◌, List, length, IfOk, IfErr};
ghost use Rattle.std.specs.List.{All};
ghost use Rattle.std.specs.List.Sorted.{IsPermutation, IsSortedByKey};
ghost use Rattle.bmp_specs.specs.Address.{IsAddressPrefix};
ghost use Rattle.bmp_specs.specs.Orders.{prefix_cmp};
ghost use Rattle.rov_table.specs.Index.{IsNested};
ghost use Rattle.rov_table.specs.declared.vrp.Vrp.{Vrp as VrpValue};
ghost use Rattle.rov_table.specs.VrpFile.{file_records, AreVrps, IsFaultOf};

use crate::file::read_vrps;
use crate::nearest::nearest;
use crate::vrp::{Vrp, VrpFault};
use std::alloc::Global;
use std::marker::Model;
use std::snapshot::Snapshot;

/// The VRPs of a file. Contracts see the list of them, in the file's order.
#[derive(Drop)]
pub struct VrpTable {
    // The file's order. It is for contracts, and takes no bytes.
    listed: Snapshot<Vec<Vrp>>,

    // The order of prefixes.
    pub(crate) sorted: Vec<Vrp>,

    // The parent of each entry: the place after the last entry before it that contains it, or 0 where there is none.
    pub(crate) parents: Vec<usize>,
}

impl Model for VrpTable {
    ghost use Rattle.std.specs.Prelude.{List};
    ghost use Rattle.rov_table.specs.declared.vrp.Vrp.{Vrp as VrpValue};
    ghost use Rattle.rov_table.specs.Index.{IsIndex};

    ghost Value = { List VrpValue };

    ghost view = { λ t. t.listed.value.items };

    ghost invariant = { λ t. IsIndex t.listed.value.items t.sorted.items t.parents.items };
}

// Puts the entries in prefix order.
fn sort(vrps: &mut Vec<Vrp>)
    ensures same { IsPermutation vrps.old.items vrps.new.items }
    ensures ordered { IsSortedByKey (λ v. v.prefix) prefix_cmp vrps.new.items }
{
    vrps.sort_unstable_by_key(|vrp| vrp.prefix);
}

// Makes the parents of entries in prefix order. Each entry is passed over once at most.
fn parents_of(alloc: Global, sorted: &[Vrp]) -> Result<Vec<usize>, VrpFault>
    requires exact { All (λ v. IsAddressPrefix v.prefix) sorted.now }
    requires ordered { IsSortedByKey (λ v. v.prefix) prefix_cmp sorted.now }
    ensures nested { IfOk result (λ parents. IsNested sorted.now parents.items) }
    ensures whole { IfOk result (λ parents. length parents.items ≡ length sorted.now) }
    ensures fault { IfErr result (λ fault. fault ≡ VrpFault.NoMemory) }
{
    let mut parents = Vec::new(alloc);
    for i in 0..sorted.len() {
        let parent = nearest(sorted, &parents, i, &sorted[i].prefix);
        if parents.push(parent).is_err() {
            return Err(VrpFault::NoMemory);
        }
    }
    Ok(parents)
}

impl VrpTable {
    /// Reads a file of VRPs, as validators of the RPKI write them: records of comma-separated fields, read as `csv` reads
    /// them by default. CR, LF or CRLF ends a record, an empty line is none, a byte order mark at the start is taken
    /// off, and a quoted field may have commas and line ends. The first record, the heading, is passed over, whatever it
    /// is.
    ///
    /// Each later record is a VRP (RFC 6811, section 2), by its first three fields: an AS number with or without `AS` at
    /// its front; a prefix; and the maximum length in bits, from the prefix's own to 32 or 128, or an empty field for the
    /// prefix's own. Numbers have no leading zeros. Further fields are passed over; a quote that isn't closed in one of
    /// them takes the rest of the file into it.
    ///
    /// `Bad`, unless memory runs out first, exactly where a later record isn't of this form: with the number of the first
    /// such record, counted from 0.
    pub fn read(alloc: Global, file: &[u8]) -> Result<VrpTable, VrpFault>
        ensures are { IfOk result (AreVrps (file_records file.now)) }
        ensures only { IfOk result (λ t. (others : List VrpValue) → AreVrps (file_records file.now) others → others ≡ t) }
        ensures fault { IfErr result (IsFaultOf (file_records file.now)) }
    {
        let mut sorted = read_vrps(alloc, file)?;
        let listed = Snapshot::of(&sorted);
        sort(&mut sorted);
        let parents = parents_of(alloc, sorted.as_slice())?;
        Ok(VrpTable {
            listed,
            sorted,
            parents,
        })
    }
}
