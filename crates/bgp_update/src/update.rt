use crate::list::NlriList;
use ip_prefix::Family;
use path_attrs::Attrs;
use std::marker::Model;
use std::sync::Arc;

/// An UPDATE message (RFC 4271, section 4.3), its prefixes in the order of the wire.
///
/// Without MP_REACH_NLRI `plain_attrs` and `multi_attrs` are one `Arc`; with it they are two, of attributes
/// that differ in the hop alone.
#[derive(Drop)]
pub struct Update {
    /// The prefixes that are withdrawn: those of "Withdrawn Routes", and then those of MP_UNREACH_NLRI
    /// (RFC 4760, section 4).
    pub withdrawn: NlriList,

    /// The prefixes of "Network Layer Reachability Information", of IPv4.
    pub plain: NlriList,

    /// The attributes of the `plain` prefixes, their hop that of NEXT_HOP.
    pub plain_attrs: Arc<Attrs>,

    /// The prefixes of MP_REACH_NLRI (RFC 4760, section 3).
    pub multi: NlriList,

    /// The attributes of the `multi` prefixes, their hop that of MP_REACH_NLRI.
    pub multi_attrs: Arc<Attrs>,

    /// The family whose End-of-RIB marker this is (RFC 4724, section 2).
    pub mark: Option<Family>,

    /// How many of MP_REACH_NLRI and MP_UNREACH_NLRI are of a family that isn't read: another than IPv4
    /// and IPv6 unicast.
    pub unread: u32,
}

impl Model for Update {
    ghost use Rattle.std.specs.Arc.{arc_value};
    ghost use Rattle.bmp_specs.specs.Values.{UpdateValue};

    ghost Value = { UpdateValue };

    ghost view = { λ u. record {
      withdrawn = u.withdrawn;
      plain = u.plain;
      plain_attrs = arc_value u.plain_attrs;
      multi = u.multi;
      multi_attrs = arc_value u.multi_attrs;
      mark = u.mark;
      unread = u.unread;
    } };
}
