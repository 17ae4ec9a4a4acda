ghost use Rattle.std.specs.Prelude.{◌≡◌, IfOk, option_copied};
ghost use Rattle.bmp_specs.specs.FourOctetAs.{IsMergedPath, ignores_as4, merged_aggregator};

use crate::attrs::Aggregator;
use as_path::{AsPath, Width};
use byteorder::{BigEndian, ByteOrder};
use std::alloc::Global;
use wire_io::{BodyFault, NoMemory};

// "AS_TRANS" (RFC 6793, section 9).
const AS_TRANS: u32 = 23456;

// Whether the AS4 attributes are ignored: AGGREGATOR has another AS than AS_TRANS, and AS4_AGGREGATOR is there (RFC
// 6793, section 4.2.3).
pub(crate) fn ignores(aggregator: &Option<Aggregator>, as4_aggregator: Option<&[u8]>) -> bool
    ensures { result ≡ ignores_as4 aggregator.now (option_copied as4_aggregator.entry) }
{
    match aggregator {
        None => false,
        Some(aggregator) => match as4_aggregator {
            None => false,
            Some(_) => aggregator.asn != AS_TRANS,
        },
    }
}

// AS4_AGGREGATOR in place of AGGREGATOR, where both are there and it has its 8 octets (RFC 6793, section 4.2.3).
pub(crate) fn merge_aggregator(
    aggregator: Option<Aggregator>,
    as4_aggregator: Option<&[u8]>,
) -> Option<Aggregator>
    ensures { result ≡ merged_aggregator aggregator (option_copied as4_aggregator.entry) }
{
    match (aggregator, as4_aggregator) {
        (Some(aggregator), Some(value)) => {
            if value.len() != 8 {
                return Some(aggregator);
            }
            let (_, address) = value.split_at(4);
            let mut identifier = [0u8; 4];
            identifier.copy_from_slice(address);
            Some(Aggregator {
                asn: BigEndian::read_u32(value),
                identifier,
            })
        }
        (aggregator, _) => aggregator,
    }
}

// The path of AS_PATH and AS4_PATH together (RFC 6793, section 4.2.3).
pub(crate) fn merge_path(
    alloc: Global,
    path: Option<AsPath>,
    as4_path: Option<&[u8]>,
) -> Result<Option<AsPath>, NoMemory>
    ensures { IfOk result (λ merged. IsMergedPath path (option_copied as4_path.entry) merged) }
{
    let path = match path {
        None => return Ok(None),
        Some(path) => path,
    };
    let value = match as4_path {
        None => return Ok(Some(path)),
        Some(value) => value,
    };
    match AsPath::read(alloc, value, Width::Four) {
        Ok(mut long) => {
            long.drop_confederation();
            match AsPath::merge(alloc, &path, &long) {
                Ok(merged) => Ok(Some(merged)),
                Err(_) => Err(NoMemory),
            }
        }
        Err(BodyFault::Broken) => Ok(Some(path)),
        Err(BodyFault::NoMemory) => Err(NoMemory),
    }
}
