ghost use Rattle.std.specs.Prelude.{◌≡◌, IfOk};
ghost use Rattle.bmp_specs.specs.TreatAsWithdraw.{no_attributes};

use crate::others::{OtherList, copy_others};
use as_path::{AsPath, Numbers};
use std::alloc::Global;
use std::marker::Model;
use wire_io::{ByteList, NoMemory};

/// AGGREGATOR (RFC 4271, section 5.1.7): who formed an aggregate route.
#[derive(Clone, Copy, Debug, PartialEq, Eq)]
pub struct Aggregator {
    /// The AS number of the last speaker that formed it.
    pub asn: u32,

    /// The IP address of that speaker, as its BGP Identifier.
    pub identifier: [u8; 4],
}

impl Model for Aggregator {
    ghost use Rattle.bmp_specs.specs.Values.{AggregatorValue};

    ghost Value = { AggregatorValue };

    ghost view = { λ a. record { asn = a.asn; identifier = a.identifier } };

    ghost inverse = { λ v. record { asn = v.asn; identifier = v.identifier } };
}

/// The path attributes of a route (RFC 4271, section 5). One that isn't there is `None`, `false` or
/// empty.
#[derive(Drop)]
pub struct Attrs {
    /// ORIGIN: 0 IGP, 1 EGP, 2 INCOMPLETE. Other values are kept.
    pub origin: Option<u8>,

    /// AS_PATH, into which AS4_PATH was put back (RFC 6793, section 4.2.3).
    pub path: Option<AsPath>,

    /// NEXT_HOP, or the next hop of MP_REACH_NLRI, in the bytes of the wire.
    pub hop: Option<ByteList>,

    /// MULTI_EXIT_DISC.
    pub med: Option<u32>,

    /// LOCAL_PREF.
    pub pref: Option<u32>,

    /// Whether ATOMIC_AGGREGATE is there.
    pub atomic: bool,

    /// AGGREGATOR, or AS4_AGGREGATOR in its place (RFC 6793, section 4.2.3).
    pub aggregator: Option<Aggregator>,

    /// COMMUNITIES (RFC 1997), in the order of the wire.
    pub communities: Numbers,

    /// The attributes of all other types, in the order of the wire.
    pub others: OtherList,
}

impl Model for Attrs {
    ghost use Rattle.bmp_specs.specs.Values.{AttrsValue};

    ghost Value = { AttrsValue };

    ghost view = { λ a. record {
      origin = a.origin;
      path = a.path;
      hop = a.hop;
      med = a.med;
      pref = a.pref;
      atomic = a.atomic;
      aggregator = a.aggregator;
      communities = a.communities;
      others = a.others;
    } };
}

fn copy_path(path: &Option<AsPath>) -> Result<Option<AsPath>, NoMemory>
    ensures { IfOk result (λ copy. copy ≡ path.now) }
{
    match path {
        None => Ok(None),
        Some(path) => match path.copy() {
            Ok(copy) => Ok(Some(copy)),
            Err(_) => Err(NoMemory),
        },
    }
}

fn copy_bytes(bytes: &Option<ByteList>) -> Result<Option<ByteList>, NoMemory>
    ensures { IfOk result (λ copy. copy ≡ bytes.now) }
{
    match bytes {
        None => Ok(None),
        Some(bytes) => match bytes.copy() {
            Ok(copy) => Ok(Some(copy)),
            Err(_) => Err(NoMemory),
        },
    }
}

impl Attrs {
    /// No attributes. They take no memory.
    pub fn none(alloc: Global) -> Attrs
        ensures { result ≡ no_attributes }
    {
        Attrs {
            origin: None,
            path: None,
            hop: None,
            med: None,
            pref: None,
            atomic: false,
            aggregator: None,
            communities: Numbers::new(alloc),
            others: OtherList::new(alloc),
        }
    }

    /// Equal attributes. It copies each byte and each number.
    pub fn copy(&self) -> Result<Attrs, NoMemory>
        ensures { IfOk result (λ copy. copy ≡ self.now) }
    {
        Ok(Attrs {
            origin: self.origin,
            path: copy_path(&self.path)?,
            hop: copy_bytes(&self.hop)?,
            med: self.med,
            pref: self.pref,
            atomic: self.atomic,
            aggregator: self.aggregator,
            communities: self.communities.copy()?,
            others: copy_others(&self.others)?,
        })
    }
}
