ghost use Rattle.std.specs.Prelude.{◌≡◌, ◌↔◌, Bool, not, ◌&&◌, IsTrue, IfSome, IfNone};
ghost use Rattle.bmp_specs.specs.FramedUpdate.{FitsFamily};
ghost use Rattle.bmp_specs.specs.UpdateForms.{FitsWidth, Takes, ids_in};
ghost use Rattle.bmp_specs.specs.UpdateForms.{as_agreed as all_as_agreed, departs as departs_in, is_old_speaker as is_old, may_have_two_octets as may_have_two, width_in as width_by};
ghost use Rattle.bgp_update.specs.Framed.{framed_value};
ghost use Rattle.bmp_message.specs.State.{opens_of};

use crate::routes::width_of;
use bgp_open::{Open, PeerInfo};
use bgp_update::{FramedUpdate, IdUse, fits_family};
use bmp_frames::PeerHeader;
use bmp_specs::{Family, Width};
use path_attrs::fits_width;
use std::marker::Model;

/// The forms of one UPDATE message, where they aren't those that were agreed on.
#[derive(Clone, Copy)]
pub(crate) struct Forms {
    /// IPv4 prefixes have no path identifiers, though each should have one (RFC 7911, section 3).
    pub(crate) bare_v4: bool,

    /// IPv6 prefixes have no path identifiers, though each should have one.
    pub(crate) bare_v6: bool,

    /// AS numbers have two octets, though the header says four (RFC 7854, section 4.2).
    pub(crate) two_octets: bool,
}

impl Model for Forms {
    ghost use Rattle.bmp_specs.specs.UpdateForms.{FormsValue};

    ghost Value = { FormsValue };

    ghost view = { λ f. record { bare_v4 = f.bare_v4; bare_v6 = f.bare_v6; two_octets = f.two_octets } };

    ghost inverse = { λ v. record { bare_v4 = v.bare_v4; bare_v6 = v.bare_v6; two_octets = v.two_octets } };
}

impl Forms {
    // All as agreed.
    pub(crate) fn as_agreed() -> Forms
        ensures { result ≡ all_as_agreed }
    {
        Forms {
            bare_v4: false,
            bare_v6: false,
            two_octets: false,
        }
    }

    // Which families have path identifiers.
    pub(crate) fn ids(&self, agreed: IdUse) -> IdUse
        ensures { result ≡ ids_in self.now agreed }
    {
        IdUse {
            v4: identified(self.bare_v4, agreed.v4),
            v6: identified(self.bare_v6, agreed.v6),
        }
    }
}

// Whether the sender of the OPEN has no four-octet AS number capability (RFC 6793, section 3).
fn is_old_speaker(speaker: &Open) -> bool
    ensures { result ≡ is_old speaker.now }
{
    !speaker.extended && speaker.four.is_none()
}

// Whether AS numbers of two octets are tried, where the header says four.
fn may_have_two_octets(peer: &PeerInfo, head: &PeerHeader) -> bool
    ensures { result ≡ may_have_two (opens_of peer.now) head.now }
{
    !head.two_byte()
        && (head.is_loc_rib() || is_old_speaker(&peer.sent) || is_old_speaker(&peer.received))
}

// Whether AS numbers have two octets where the header says four.
pub(crate) fn departs(peer: &PeerInfo, head: &PeerHeader, two_octets: bool) -> bool
    ensures { result ≡ departs_in (opens_of peer.now) head.now two_octets }
{
    two_octets && may_have_two_octets(peer, head)
}

// The width of AS numbers.
pub(crate) fn width_in(peer: &PeerInfo, head: &PeerHeader, two_octets: bool) -> Width
    ensures { result ≡ width_by (opens_of peer.now) head.now two_octets }
{
    if departs(peer, head, two_octets) {
        Width::Two
    } else {
        width_of(head)
    }
}

// Whether the path attributes have a value in this width.
fn fits(peer: &PeerInfo, head: &PeerHeader, attributes: &[u8], two_octets: bool) -> bool
    ensures { IsTrue result ↔ FitsWidth (opens_of peer.now) head.now attributes.now two_octets }
{
    let width = width_in(peer, head, two_octets);
    fits_width(attributes, width, departs(peer, head, two_octets))
}

// Whether prefixes have path identifiers.
fn identified(bare: bool, agreed: bool) -> bool
    ensures { result ≡ (not bare && agreed) }
{
    !bare && agreed
}

// Whether the prefixes of the family are taken without path identifiers: as in the last message where that fits, and
// else the other way. `None` where neither fits.
pub(crate) fn choose_family(
    framed: &FramedUpdate<'_>,
    family: Family,
    agreed: bool,
    last: bool,
) -> Option<bool>
    ensures some { IfSome result (Takes (λ bare. FitsFamily (framed_value framed.now) family (not bare && agreed)) last) }
    ensures none { IfNone result ((bare : Bool) → FitsFamily (framed_value framed.now) family (not bare && agreed) → ⊥) }
{
    if fits_family(framed, family, identified(last, agreed)) {
        return Some(last);
    }
    if !agreed {
        return None;
    }
    if fits_family(framed, family, last) {
        return Some(!last);
    }
    None
}

// Whether AS numbers are taken in two octets though the header says four: as in the last message where that fits, and
// else the other way. `None` where neither fits.
pub(crate) fn choose_width(
    peer: &PeerInfo,
    head: &PeerHeader,
    attributes: &[u8],
    last: bool,
) -> Option<bool>
    ensures some { IfSome result (Takes (FitsWidth (opens_of peer.now) head.now attributes.now) last) }
    ensures none { IfNone result ((two_octets : Bool) → FitsWidth (opens_of peer.now) head.now attributes.now two_octets → ⊥) }
{
    if fits(peer, head, attributes, last) {
        return Some(last);
    }
    if !may_have_two_octets(peer, head) {
        return None;
    }
    if fits(peer, head, attributes, !last) {
        return Some(!last);
    }
    None
}
