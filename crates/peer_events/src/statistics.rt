ghost use Rattle.std.specs.Prelude.{◌≡◌, ◌↔◌, ◌≤◌, ◌+◌, [], ◌∷◌, ◌++◌, List, Option, IfOk, IfErr, OnOk, OnErr, IsErrOf, IsNone, IfSome, length, option_to_list, is_none, count_by};
ghost use Rattle.std.specs.List.{filter_map};
ghost use Rattle.peer_events.specs.Body.{most_body};
ghost use Rattle.bmp_specs.specs.Statistics.{IsStatistics, statistic_of, value_in};
ghost use Rattle.bmp_specs.specs.Tlv.{AreTlvs};
ghost use Rattle.bmp_specs.specs.Values.{StatisticsValue, TlvValue};

use crate::tlvs::{Tlv, are_tlvs, read_tlv};
use byteorder::{BigEndian, ByteOrder};
use std::alloc::Global;
use std::marker::Model;
use wire_io::{BodyFault, List, NoMemory};
use wire_tables::{Shape, Stat, statistic_table};

/// A list of statistics, in the order of the wire.
pub type StatList = List<Stat>;

/// A Statistics Report (RFC 7854, section 4.8).
#[derive(Drop)]
pub struct Statistics {
    /// The statistics that are known, in the order of the wire.
    pub stats: StatList,

    /// How many TLVs were passed over.
    pub unread: u32,
}

impl Model for Statistics {
    ghost use Rattle.bmp_specs.specs.Values.{StatisticsValue};

    ghost Value = { StatisticsValue };

    ghost view = { λ s. record { stats = s.stats; unread = s.unread } };
}

// The statistic that a value has by its shape.
fn stat_in(shape: Shape, code: u16, value: &[u8]) -> Option<Stat>
    ensures { result ≡ value_in shape code value.now }
{
    match shape {
        Shape::Counter32 => {
            if value.len() != 4 {
                return None;
            }
            let counter = BigEndian::read_u32(value) as u64;
            Some(Stat {
                code,
                afi: 0,
                safi: 0,
                value: counter,
            })
        }
        Shape::Gauge64 => {
            if value.len() != 8 {
                return None;
            }
            let gauge = BigEndian::read_u64(value);
            Some(Stat {
                code,
                afi: 0,
                safi: 0,
                value: gauge,
            })
        }
        Shape::FamilyGauge64 => {
            if value.len() != 11 {
                return None;
            }
            let afi = BigEndian::read_u16(value);
            let gauge = BigEndian::read_u64(&value[3..]);
            Some(Stat {
                code,
                afi,
                safi: value[2],
                value: gauge,
            })
        }
        Shape::Exact(_) | Shape::Multiple(_) | Shape::Free => None,
    }
}

// The statistic of a TLV: its type has a row, and its length is that of the row.
fn stat_of(tlv: Tlv<'_>) -> Option<Stat>
    ensures { result ≡ statistic_of (record { kind = tlv.entry.kind; value = tlv.entry.value.now }) }
{
    match statistic_table().find(tlv.kind) {
        Some(shape) => stat_in(shape, tlv.kind, tlv.value),
        None => None,
    }
}

// How many TLVs there are.
fn count_tlvs(bytes: &[u8]) -> u32
    requires { length bytes.now ≤ most_body }
    ensures { (ts : List TlvValue) → AreTlvs bytes.now ts → result ≡ length ts }
{
    let mut rest = bytes;
    let mut count = 0;
    while let Some(tlv) = read_tlv(rest) {
        count += 1;
        rest = tlv.rest;
    }
    count
}

// Appends the statistics of the TLVs, and counts those that are passed over.
fn add_stats(stats: &mut StatList, bytes: &[u8]) -> Result<u32, NoMemory>
    requires { length bytes.now ≤ most_body }
    ensures stats { OnOk result ((ts : List TlvValue) → AreTlvs bytes.now ts → stats.new ≡ stats.old ++ filter_map statistic_of ts) }
    ensures unread { IfOk result (λ unread. (ts : List TlvValue) → AreTlvs bytes.now ts → unread ≡ count_by (λ t. is_none (statistic_of t)) ts) }
{
    let mut rest = bytes;
    let mut unread = 0;
    while let Some(tlv) = read_tlv(rest) {
        rest = tlv.rest;
        match stat_of(tlv) {
            Some(stat) => stats.push(stat)?,
            None => unread += 1,
        }
    }
    Ok(unread)
}

/// Reads what follows the Per-Peer Header in a Statistics Report (RFC 7854, section 4.8), all of the
/// bytes. `BodyFault::Broken` exactly where they aren't a count and as many TLVs. A TLV whose type has
/// no row in `statistic_table`, or whose length isn't that of its row, is passed over. Time and memory
/// are linear in the bytes.
pub fn read_statistics(alloc: Global, rest: &[u8]) -> Result<Statistics, BodyFault>
    requires { length rest.now ≤ most_body }
    ensures ok { IfOk result (λ s. IsStatistics rest.now s) }
    ensures broken { IsErrOf result BodyFault.Broken → (s : StatisticsValue) → IsStatistics rest.now s → ⊥ }
{
    if rest.len() < 4 {
        return Err(BodyFault::Broken);
    }
    let tlvs = &rest[4..];
    if !are_tlvs(tlvs) {
        return Err(BodyFault::Broken);
    }
    if count_tlvs(tlvs) != BigEndian::read_u32(rest) {
        return Err(BodyFault::Broken);
    }
    let mut stats = StatList::new(alloc);
    let unread = add_stats(&mut stats, tlvs)?;
    Ok(Statistics { stats, unread })
}
