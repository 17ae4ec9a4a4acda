ghost use Rattle.std.specs.Prelude.{◌≡◌, ◌≤◌, IfOk, IsErrOf, length};
ghost use Rattle.std.specs.Option.{option_copied};
ghost use Rattle.peer_events.specs.Body.{most_body};
ghost use Rattle.bmp_specs.specs.Initiation.{IsInitiation};
ghost use Rattle.bmp_specs.specs.Values.{InitiationValue};

use crate::tlvs::{Carrier, are_tlvs, count_unread, last_value};
use bmp_frames::{SYS_DESCR, SYS_NAME};
use std::alloc::Global;
use std::marker::Model;
use wire_io::{BodyFault, ByteList, NoMemory};

/// What an Initiation Message tells of a router (RFC 7854, section 4.3).
#[derive(Drop)]
pub struct Initiation {
    /// The last sysName, where there is one.
    pub name: Option<ByteList>,

    /// The last sysDescr, where there is one.
    pub descr: Option<ByteList>,

    /// How many TLVs were passed over.
    pub unread: u32,
}

impl Model for Initiation {
    ghost use Rattle.bmp_specs.specs.Values.{InitiationValue};

    ghost Value = { InitiationValue };

    ghost view = { λ i. record { name = i.name; descr = i.descr; unread = i.unread } };
}

// A copy of the bytes, where there are any.
pub(crate) fn copied(alloc: Global, bytes: Option<&[u8]>) -> Result<Option<ByteList>, NoMemory>
    ensures { IfOk result (λ copy. copy ≡ option_copied bytes.entry) }
{
    match bytes {
        Some(bytes) => {
            let mut copy = ByteList::new(alloc);
            copy.extend(bytes)?;
            Ok(Some(copy))
        }
        None => Ok(None),
    }
}

/// Reads the body of an Initiation Message (RFC 7854, section 4.3), all of the bytes.
/// `BodyFault::Broken` exactly where TLVs don't fill them. Time and memory are linear in the bytes.
pub fn read_initiation(alloc: Global, body: &[u8]) -> Result<Initiation, BodyFault>
    requires { length body.now ≤ most_body }
    ensures ok { IfOk result (λ i. IsInitiation body.now i) }
    ensures broken { IsErrOf result BodyFault.Broken → (i : InitiationValue) → IsInitiation body.now i → ⊥ }
{
    if !are_tlvs(body) {
        return Err(BodyFault::Broken);
    }
    let name = copied(alloc, last_value(body, SYS_NAME))?;
    let descr = copied(alloc, last_value(body, SYS_DESCR))?;
    Ok(Initiation {
        name,
        descr,
        unread: count_unread(Carrier::Initiation, body),
    })
}
