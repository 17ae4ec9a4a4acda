//! The capabilities of an OPEN message (RFC 5492, section 4).
ghost use Rattle.std.specs.Prelude.{◌≡◌, ◌*◌, ◌≤◌, ◌<◌, ◌↔◌, length, IsTrue, OnOk, OnErr};
ghost use Rattle.bmp_specs.specs.Parts.{AreParts};
ghost use Rattle.bmp_writer.specs.Capabilities.{AreCapabilities, IsAsCapability, IsFamilyCapability, IsPathCapability, IsPathEntry, as_bytes, capabilities_size, entry_bytes, family_bytes, paths_size};
ghost use Rattle.bmp_writer.specs.Written.{Appends, Keeps};

use bgp_open::{ADD_PATH, Cap, FOUR_OCTET_AS, MULTIPROTOCOL, Open};
use wire_io::{ByteList, NoMemory};

/// How many bytes the capabilities take.
pub(crate) fn size_of_capabilities(message: &Open) -> usize
    requires { capabilities_size message.now ≤ 1000 }
    ensures { result ≡ capabilities_size message.now }
{
    let four = match message.four {
        Some(_) => 6,
        None => 0,
    };
    6 * message.families.as_slice().len() + four + size_of_paths(message.paths.as_slice())
}

// How many bytes an ADD-PATH capability of these entries takes, where there are any.
fn size_of_paths(paths: &[Cap]) -> usize
    requires { paths_size paths.now ≤ 1000 }
    ensures { result ≡ paths_size paths.now }
{
    match paths.len() {
        0 => 0,
        count => 2 + 4 * count,
    }
}

/// Whether the capabilities fit in one optional parameter.
pub(crate) fn fit_in_parameter(message: &Open) -> bool
    ensures { IsTrue result ↔ (capabilities_size message.now ≤ 253) }
{
    if message.families.as_slice().len() > 42 || message.paths.as_slice().len() > 62 {
        return false;
    }
    size_of_capabilities(message) <= 253
}

// A multiprotocol capability.
fn family_capability(cap: &Cap) -> [u8; 6]
    ensures bytes { result ≡ family_bytes cap.now }
    ensures fits { cap.now.afi < 65536 }
{
    let [a, b] = cap.afi.to_be_bytes();
    [MULTIPROTOCOL, 4, a, b, 0, cap.safi]
}

// An entry of an ADD-PATH capability.
fn path_entry(cap: &Cap) -> [u8; 4]
    ensures bytes { result ≡ entry_bytes cap.now }
    ensures fits { cap.now.afi < 65536 }
{
    let [a, b] = cap.afi.to_be_bytes();
    [a, b, cap.safi, cap.value]
}

// A four-octet AS number capability.
fn as_capability(asn: u32) -> [u8; 6]
    ensures { result ≡ as_bytes asn }
{
    let [a, b, c, d] = asn.to_be_bytes();
    [FOUR_OCTET_AS, 4, a, b, c, d]
}

fn put_families(out: &mut ByteList, families: &[Cap]) -> Result<(), NoMemory>
    ensures ok { OnOk result (Appends (λ bytes. AreParts IsFamilyCapability bytes families.now) out.old out.new) }
    ensures err { OnErr result (Keeps out.old out.new) }
{
    for cap in families {
        out.extend(&family_capability(cap))?;
    }
    Ok(())
}

fn put_as(out: &mut ByteList, four: Option<u32>) -> Result<(), NoMemory>
    ensures ok { OnOk result (Appends (IsAsCapability four) out.old out.new) }
    ensures err { OnErr result (Keeps out.old out.new) }
{
    match four {
        Some(asn) => out.extend(&as_capability(asn)),
        None => Ok(()),
    }
}

fn put_entries(out: &mut ByteList, paths: &[Cap]) -> Result<(), NoMemory>
    ensures ok { OnOk result (Appends (λ bytes. AreParts IsPathEntry bytes paths.now) out.old out.new) }
    ensures err { OnErr result (Keeps out.old out.new) }
{
    for cap in paths {
        out.extend(&path_entry(cap))?;
    }
    Ok(())
}

fn put_paths(out: &mut ByteList, paths: &[Cap]) -> Result<(), NoMemory>
    requires { 4 * length paths.now ≤ 251 }
    ensures ok { OnOk result (Appends (IsPathCapability paths.now) out.old out.new) }
    ensures err { OnErr result (Keeps out.old out.new) }
{
    let count = paths.len();
    if count == 0 {
        return Ok(());
    }
    out.extend(&[ADD_PATH, (4 * count) as u8])?;
    put_entries(out, paths)
}

/// Appends the capabilities: one for each family, one for the AS number, and one for all ADD-PATH entries. For want
/// of memory fewer bytes stand after those of before.
pub(crate) fn put_capabilities(out: &mut ByteList, message: &Open) -> Result<(), NoMemory>
    requires { capabilities_size message.now ≤ 253 }
    ensures ok { OnOk result (Appends (AreCapabilities message.now) out.old out.new) }
    ensures err { OnErr result (Keeps out.old out.new) }
{
    put_families(out, message.families.as_slice())?;
    put_as(out, message.four)?;
    put_paths(out, message.paths.as_slice())
}
