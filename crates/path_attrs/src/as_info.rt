ghost use Rattle.std.specs.Prelude.{◌≡◌, ◌+◌, List, length, IfSome, IfOk, option_copied};
ghost use Rattle.bmp_specs.specs.AsPath.{ArePath, as_width};
ghost use Rattle.bmp_specs.specs.Attributes.{IsAggregator, Optional, aggregator, as_path};
ghost use Rattle.bmp_specs.specs.Values.{SegmentValue};
ghost use Rattle.path_attrs.specs.AsInfo.{StatesAs};
ghost use Rattle.path_attrs.specs.Field.{value_at};

use crate::as4::{ignores, merge_aggregator, merge_path};
use crate::attrs::Aggregator;
use crate::codes::{AGGREGATOR, AS_PATH, AS4_AGGREGATOR, AS4_PATH, PLACES};
use as_path::{AsPath, Width};
use byteorder::{BigEndian, ByteOrder};
use std::alloc::Global;
use wire_io::{BodyFault, NoMemory};

// How many bytes an AS number has.
pub(crate) fn width_bytes(width: Width) -> usize
    ensures { result ≡ as_width width }
{
    match width {
        Width::Two => 2,
        Width::Four => 4,
    }
}

// AGGREGATOR, where its value is there, with an AS number of the width (RFC 4271, section 5.1.7).
fn make_aggregator(value: Option<&[u8]>, width: Width) -> Option<Aggregator>
    requires { IfSome (option_copied value) (λ bytes. length bytes ≡ as_width width + 4) }
    ensures { Optional (IsAggregator width) (option_copied value.entry) result }
{
    match value {
        None => None,
        Some(bytes) => {
            let (_, address) = bytes.split_at(width_bytes(width));
            let mut identifier = [0u8; 4];
            identifier.copy_from_slice(address);
            Some(match width {
                Width::Two => Aggregator {
                    asn: BigEndian::read_u16(bytes) as u32,
                    identifier,
                },
                Width::Four => Aggregator {
                    asn: BigEndian::read_u32(bytes),
                    identifier,
                },
            })
        }
    }
}

// AS_PATH, where its value is there, with AS numbers of the width (RFC 4271, section 5.1.2).
fn make_path(alloc: Global, value: Option<&[u8]>, width: Width) -> Result<Option<AsPath>, NoMemory>
    requires { IfSome (option_copied value) (λ bytes. (path : List SegmentValue) × ArePath width bytes path) }
    ensures { IfOk result (Optional (ArePath width) (option_copied value.entry)) }
{
    match value {
        None => Ok(None),
        Some(bytes) => match AsPath::read(alloc, bytes, width) {
            Ok(path) => Ok(Some(path)),
            // excluded by the premise: the value is a path
            Err(BodyFault::Broken) => unreachable!(),
            Err(BodyFault::NoMemory) => Err(NoMemory),
        },
    }
}

// The AS path and the aggregator of a route.
#[derive(Drop)]
pub(crate) struct AsInfo {
    pub(crate) aggregator: Option<Aggregator>,
    pub(crate) path: Option<AsPath>,
}

// What AS_PATH and AGGREGATOR say, in two-octet form together with AS4_PATH and AS4_AGGREGATOR (RFC 6793, section
// 4.2.3).
pub(crate) fn make_as_info(
    alloc: Global,
    values: &[Option<&[u8]>; PLACES],
    width: Width,
) -> Result<AsInfo, NoMemory>
    requires path { IfSome (value_at values.now as_path) (λ bytes. (path : List SegmentValue) × ArePath width bytes path) }
    requires aggregator { IfSome (value_at values.now aggregator) (λ bytes. length bytes ≡ as_width width + 4) }
    ensures { IfOk result (λ info. StatesAs width (value_at values.now) info.aggregator info.path) }
{
    let path = make_path(alloc, values[AS_PATH as usize], width)?;
    let aggregator = make_aggregator(values[AGGREGATOR as usize], width);
    match width {
        Width::Four => Ok(AsInfo { aggregator, path }),
        Width::Two => {
            let as4_aggregator = values[AS4_AGGREGATOR as usize];
            let as4_path = values[AS4_PATH as usize];
            if ignores(&aggregator, as4_aggregator) {
                return Ok(AsInfo { aggregator, path });
            }
            let path = merge_path(alloc, path, as4_path)?;
            let aggregator = merge_aggregator(aggregator, as4_aggregator);
            Ok(AsInfo { aggregator, path })
        }
    }
}
