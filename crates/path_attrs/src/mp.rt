ghost use Rattle.std.specs.Prelude.{◌≡◌, IfOk, OnErr, option_copied};
ghost use Rattle.std.specs.Option.{option_map};
ghost use Rattle.bmp_specs.specs.Attributes.{Optional};
ghost use Rattle.bmp_specs.specs.MpNlri.{IsMpReach, IsMpUnreach};
ghost use Rattle.bmp_specs.specs.Values.{MpValue};
ghost use Rattle.path_attrs.specs.Field.{Breaks};
ghost use Rattle.path_attrs.specs.Judged.{mp_value};

use crate::bytes::bytes_of;
use crate::fault::Broken;
use byteorder::{BigEndian, ByteOrder};
use std::alloc::Global;
use std::marker::Model;
use wire_io::{ByteList, NoMemory};

/// MP_REACH_NLRI or MP_UNREACH_NLRI (RFC 4760, sections 3 and 4).
#[derive(Drop)]
pub struct MpPart {
    /// "Address Family Identifier".
    pub afi: u16,

    /// "Subsequent Address Family Identifier".
    pub safi: u8,

    /// "Network Address of Next Hop"; empty in a withdrawal.
    pub hop: ByteList,

    /// "Network Layer Reachability Information" or "Withdrawn Routes", in the bytes of the wire.
    pub prefixes: ByteList,
}

impl Model for MpPart {
    ghost use Rattle.bmp_specs.specs.Values.{MpValue};

    ghost Value = { MpValue };

    ghost view = { λ m. record { afi = m.afi; safi = m.safi; hop = m.hop; prefixes = m.prefixes } };
}

/// MP_REACH_NLRI or MP_UNREACH_NLRI (RFC 4760, sections 3 and 4), in the bytes of its field.
#[derive(Clone, Copy)]
pub struct MpSlice<'a> {
    /// "Address Family Identifier".
    pub afi: u16,

    /// "Subsequent Address Family Identifier".
    pub safi: u8,

    /// "Network Address of Next Hop"; empty in a withdrawal.
    pub hop: &'a [u8],

    /// "Network Layer Reachability Information" or "Withdrawn Routes".
    pub prefixes: &'a [u8],
}

// The value of MP_REACH_NLRI (RFC 4760, section 3). Its reserved octet isn't judged.
fn reach_in(value: &[u8]) -> Result<MpSlice<'_>, Broken>
    ensures ok { IfOk result (λ m. IsMpReach value.now (mp_value m)) }
    ensures broken { OnErr result ((m : MpValue) → IsMpReach value.now m → ⊥) }
{
    if value.len() < 5 {
        return Err(Broken);
    }
    let size = value[3] as usize;
    if value.len() < size + 5 {
        return Err(Broken);
    }
    let (_, after) = value.split_at(4);
    let (hop, _) = after.split_at(size);
    let (_, prefixes) = value.split_at(size + 5);
    Ok(MpSlice {
        afi: BigEndian::read_u16(value),
        safi: value[2],
        hop,
        prefixes,
    })
}

// The value of MP_UNREACH_NLRI (RFC 4760, section 4).
fn unreach_in(value: &[u8]) -> Result<MpSlice<'_>, Broken>
    ensures ok { IfOk result (λ m. IsMpUnreach value.now (mp_value m)) }
    ensures broken { OnErr result ((m : MpValue) → IsMpUnreach value.now m → ⊥) }
{
    if value.len() < 3 {
        return Err(Broken);
    }
    let (_, prefixes) = value.split_at(3);
    Ok(MpSlice {
        afi: BigEndian::read_u16(value),
        safi: value[2],
        hop: &[],
        prefixes,
    })
}

// MP_REACH_NLRI where it stands, where its value is there.
pub(crate) fn slice_reach<'a>(value: Option<&'a [u8]>) -> Result<Option<MpSlice<'a>>, Broken>
    ensures ok { IfOk result (λ m. Optional IsMpReach (option_copied value.entry) (option_map mp_value m)) }
    ensures broken { OnErr result (Breaks IsMpReach (option_copied value.entry)) }
{
    match value {
        None => Ok(None),
        Some(value) => match reach_in(value) {
            Ok(slice) => Ok(Some(slice)),
            Err(fault) => Err(fault),
        },
    }
}

// MP_UNREACH_NLRI where it stands, where its value is there.
pub(crate) fn slice_unreach<'a>(value: Option<&'a [u8]>) -> Result<Option<MpSlice<'a>>, Broken>
    ensures ok { IfOk result (λ m. Optional IsMpUnreach (option_copied value.entry) (option_map mp_value m)) }
    ensures broken { OnErr result (Breaks IsMpUnreach (option_copied value.entry)) }
{
    match value {
        None => Ok(None),
        Some(value) => match unreach_in(value) {
            Ok(slice) => Ok(Some(slice)),
            Err(fault) => Err(fault),
        },
    }
}

// A copy of the attribute, where it is there.
pub(crate) fn make_part(
    alloc: Global,
    slice: &Option<MpSlice<'_>>,
) -> Result<Option<MpPart>, NoMemory>
    ensures { IfOk result (λ part. part ≡ option_map mp_value slice.now) }
{
    match slice {
        None => Ok(None),
        Some(slice) => Ok(Some(MpPart {
            afi: slice.afi,
            safi: slice.safi,
            hop: bytes_of(alloc, slice.hop)?,
            prefixes: bytes_of(alloc, slice.prefixes)?,
        })),
    }
}
