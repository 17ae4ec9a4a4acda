ghost use Rattle.std.specs.Prelude.{◌≡◌, ℕ, List, ◌+◌, ◌≤◌, [], ◌∷◌, ◌++◌, length, take, OnOk, OnErr};
ghost use Rattle.bmp_specs.specs.Tlv.{IsTlv};
ghost use Rattle.bmp_specs.specs.Values.{named, described};
ghost use Rattle.bmp_writer.specs.Written.{Always, Appends, HasTold, IsToldMessage, IsWritten, initiation_type, unchanged};
ghost use Rattle.bmp_writer.specs.declared.initiation.TheConstants.{LONGEST};

use crate::common::{common_header, put};
use bmp_frames::{COMMON_HEADER, INITIATION, SYS_DESCR, SYS_NAME};
use wire_io::{ByteList, NoMemory};

/// The bytes of the longest Initiation Message that is written.
const LONGEST: usize = 131_084;

// Puts a TLV at a place of the frame, and tells where it ends (RFC 7854, section 4.4).
fn put_tlv(frame: &mut [u8], at: usize, kind: u16, value: &[u8]) -> usize
    requires short { length value.now ≤ 65535 }
    requires room { at + 4 + length value.now ≤ length frame.old }
    ensures end { result ≡ at + 4 + length value.now }
    ensures size { length frame.new ≡ length frame.old }
    ensures front { (part : List ℕ) × (take result frame.new ≡ take at frame.old ++ part) × IsTlv part (record { kind = kind; value = value.now }) }
{
    let at = put(frame, at, &kind.to_be_bytes());
    let at = put(frame, at, &(value.len() as u16).to_be_bytes());
    put(frame, at, value)
}

// Appends the message. It is put together in room for the longest, whose size is a parameter, since the prover writes out
// an array of a known size in each goal.
fn put_in<const N: usize>(out: &mut ByteList, name: &[u8], descr: &[u8]) -> Result<(), NoMemory>
    requires room { N ≡ LONGEST }
    requires name { length name.now ≤ 65535 }
    requires descr { length descr.now ≤ 65535 }
    ensures ok { OnOk result (Appends (IsWritten initiation_type Always (named name.now ∷ described descr.now ∷ []) unchanged) out.old out.new) }
    ensures bytes { OnOk result (Appends (IsToldMessage name.now descr.now) out.old out.new) }
    ensures tlvs { OnOk result (Appends (HasTold name.now descr.now) out.old out.new) }
    ensures err { OnErr result (out.new ≡ out.old) }
{
    let mut frame = [0u8; N];
    let length = COMMON_HEADER + 8 + descr.len() as u32 + name.len() as u32;
    let at = put(&mut frame, 0, &common_header(INITIATION, length));
    let at = put_tlv(&mut frame, at, SYS_DESCR, descr);
    let at = put_tlv(&mut frame, at, SYS_NAME, name);
    out.extend(&frame[..at])
}

/// Appends an Initiation Message with a sysDescr and then a sysName (RFC 7854, section 4.3), each of at
/// most 65,535 bytes. After `NoMemory` the list is as before.
#[inline(never)]
pub fn put_initiation(out: &mut ByteList, name: &[u8], descr: &[u8]) -> Result<(), NoMemory>
    requires name { length name.now ≤ 65535 }
    requires descr { length descr.now ≤ 65535 }
    ensures ok { OnOk result (Appends (IsWritten initiation_type Always (named name.now ∷ described descr.now ∷ []) unchanged) out.old out.new) }
    ensures bytes { OnOk result (Appends (IsToldMessage name.now descr.now) out.old out.new) }
    ensures tlvs { OnOk result (Appends (HasTold name.now descr.now) out.old out.new) }
    ensures err { OnErr result (out.new ≡ out.old) }
{
    put_in::<LONGEST>(out, name, descr)
}
