ghost use Rattle.std.specs.Prelude.{◌≡◌, ◌%◌, length, IfSome, IfOk, option_copied};
ghost use Rattle.bmp_specs.specs.Attributes.{AreCommunities, IsAtomic, Optional};
ghost use Rattle.bmp_specs.specs.Number.{IsNumber};
ghost use Rattle.bmp_specs.specs.Parts.{AreParts};
ghost use Rattle.bmp_specs.specs.Sequence.{IsField};

use crate::bytes::bytes_of;
use as_path::Numbers;
use byteorder::{BigEndian, ByteOrder};
use std::alloc::Global;
use wire_io::{ByteList, NoMemory};

// ORIGIN (RFC 4271, section 5.1.1), where its value is there.
pub(crate) fn octet(value: Option<&[u8]>) -> Option<u8>
    requires { IfSome (option_copied value) (λ bytes. length bytes ≡ 1) }
    ensures { Optional (IsNumber 1) (option_copied value.entry) result }
{
    match value {
        None => None,
        Some(bytes) => Some(bytes[0]),
    }
}

// MULTI_EXIT_DISC or LOCAL_PREF (RFC 4271, sections 5.1.4 and 5.1.5), where its value is there.
pub(crate) fn number(value: Option<&[u8]>) -> Option<u32>
    requires { IfSome (option_copied value) (λ bytes. length bytes ≡ 4) }
    ensures { Optional (IsNumber 4) (option_copied value.entry) result }
{
    match value {
        None => None,
        Some(bytes) => Some(BigEndian::read_u32(bytes)),
    }
}

// Whether ATOMIC_AGGREGATE is there (RFC 4271, section 5.1.6).
pub(crate) fn is_there(value: Option<&[u8]>) -> bool
    requires { IfSome (option_copied value) (λ bytes. length bytes ≡ 0) }
    ensures { IsAtomic (option_copied value.entry) result }
{
    match value {
        None => false,
        Some(_) => true,
    }
}

// NEXT_HOP (RFC 4271, section 5.1.3), where its value is there.
pub(crate) fn make_hop(alloc: Global, value: Option<&[u8]>) -> Result<Option<ByteList>, NoMemory>
    requires { IfSome (option_copied value) (λ bytes. length bytes ≡ 4) }
    ensures { IfOk result (Optional (IsField 4) (option_copied value.entry)) }
{
    match value {
        None => Ok(None),
        Some(bytes) => Ok(Some(bytes_of(alloc, bytes)?)),
    }
}

// The numbers of four bytes that the bytes are.
fn numbers_of(alloc: Global, bytes: &[u8]) -> Result<Numbers, NoMemory>
    requires { length bytes.now % 4 ≡ 0 }
    ensures { IfOk result (λ numbers. AreParts (IsNumber 4) bytes.now numbers) }
{
    let mut numbers = Numbers::with_capacity(alloc, bytes.len() / 4)?;
    let mut rest = bytes;
    while rest.len() >= 4 {
        let (front, after) = rest.split_at(4);
        numbers.push(BigEndian::read_u32(front))?;
        rest = after;
    }
    Ok(numbers)
}

// COMMUNITIES (RFC 1997), where its value is there, or no numbers.
pub(crate) fn make_communities(alloc: Global, value: Option<&[u8]>) -> Result<Numbers, NoMemory>
    requires { IfSome (option_copied value) (λ bytes. length bytes % 4 ≡ 0) }
    ensures { IfOk result (AreCommunities (option_copied value.entry)) }
{
    match value {
        None => Ok(Numbers::new(alloc)),
        Some(bytes) => numbers_of(alloc, bytes),
    }
}
