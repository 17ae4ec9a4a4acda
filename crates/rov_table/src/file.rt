ghost use Rattle.std.specs.Prelude.{◌≡◌, List, ℕ, [], IfOk, OnOk, IfErr};
ghost use Rattle.std.specs.List.{All};
ghost use Rattle.bmp_specs.specs.Address.{IsAddressPrefix};
ghost use Rattle.rov_table.specs.Records.{Gives};
ghost use Rattle.rov_table.specs.VrpFile.{file_records, AreVrps, IsFaultOf};

use crate::fields::vrp_of;
use crate::records::{next_record, records_of};
use crate::vrp::{Vrp, VrpFault};
use csv::{ByteRecord, Reader};
use std::alloc::Global;

// Reads the VRPs that a reader has to give into an empty list, in their order. The first record is passed over, whatever it
// is.
fn read_into(
    rdr: &mut Reader<&[u8]>,
    row: &mut ByteRecord,
    vrps: &mut Vec<Vrp>,
) -> Result<(), VrpFault>
    requires { vrps.old.items ≡ [] }
    ensures are { OnOk result ((rows : List (List (List ℕ))) → Gives rdr.old rows → AreVrps rows vrps.new.items) }
    ensures exact { OnOk result (All (λ v. IsAddressPrefix v.prefix) vrps.new.items) }
    ensures fault { IfErr result (λ fault. (rows : List (List (List ℕ))) → Gives rdr.old rows → IsFaultOf rows fault) }
{
    let Ok(any) = next_record(rdr, row) else {
        return Err(VrpFault::NoMemory);
    };
    if !any {
        return Ok(());
    }
    for line in 1..u64::MAX {
        let Ok(found) = next_record(rdr, row) else {
            return Err(VrpFault::NoMemory);
        };
        if !found {
            return Ok(());
        }
        let Some(vrp) = vrp_of(row) else {
            return Err(VrpFault::Bad { line });
        };
        if vrps.push(vrp).is_err() {
            return Err(VrpFault::NoMemory);
        }
    }
    Err(VrpFault::NoMemory)
}

/// Reads the VRPs of a file, in its order. The first record is passed over, whatever it is. An error of the reader is
/// told as `NoMemory`: over bytes in memory there is no other.
pub(crate) fn read_vrps(alloc: Global, file: &[u8]) -> Result<Vec<Vrp>, VrpFault>
    ensures are { IfOk result (λ vrps. AreVrps (file_records file.now) vrps.items) }
    ensures exact { IfOk result (λ vrps. All (λ v. IsAddressPrefix v.prefix) vrps.items) }
    ensures fault { IfErr result (IsFaultOf (file_records file.now)) }
{
    let mut rdr = records_of(alloc, file);
    let mut row = ByteRecord::new(alloc);
    let mut vrps = Vec::new(alloc);
    match read_into(&mut rdr, &mut row, &mut vrps) {
        Ok(()) => Ok(vrps),
        Err(fault) => Err(fault),
    }
}
