ghost use Rattle.std.specs.Prelude.{◌≡◌, option_and_then};
ghost use Rattle.std.specs.Option.{option_map};
ghost use Rattle.bmp_specs.specs.MergedPath.{last_of};
ghost use Rattle.rov_table.specs.Origins.{route_origin};

use as_path::{AsPath, Segment, SegmentKind};
use bgp_open::PeerInfo;
use path_attrs::Attrs;

// The last segment of a path, where there is one.
fn last_segment(path: &Option<AsPath>) -> Option<&Segment>
    ensures { option_map (λ s. s.now) result ≡ option_and_then last_of path.now }
{
    match path {
        None => None,
        Some(path) => path.as_slice().last(),
    }
}

/// The origin AS of a route of this peer (RFC 6811, section 2, "Route Origin ASN"): the last AS of the path's last
/// segment, where that is an AS_SEQUENCE; the speaker's own, which its OPEN told, where the last segment is of a
/// confederation, or there is no segment or no path; `None` where the last segment is an AS_SET.
pub fn origin_of(attrs: &Attrs, info: &PeerInfo) -> Option<u32>
    ensures { result ≡ route_origin attrs.now info.now }
{
    let Some(last) = last_segment(&attrs.path) else {
        return Some(info.sent.asn());
    };
    match last.kind {
        SegmentKind::Set => None,
        SegmentKind::Sequence => last.numbers.as_slice().last().copied(),
        SegmentKind::ConfedSequence | SegmentKind::ConfedSet => Some(info.sent.asn()),
    }
}
