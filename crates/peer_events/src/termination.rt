ghost use Rattle.std.specs.Prelude.{◌≤◌, IsTrue, length};
ghost use Rattle.peer_events.specs.Body.{most_body};
ghost use Rattle.bmp_specs.specs.Termination.{IsTermination};

use crate::tlvs::are_tlvs;

/// Termination Message (RFC 7854, section 4.5): whether the bytes are the body of one, which TLVs fill. Nothing of
/// them is kept.
pub fn read_termination(body: &[u8]) -> bool
    requires { length body.now ≤ most_body }
    ensures yes { IsTrue result → IsTermination body.now }
    ensures no { IsTermination body.now → IsTrue result }
{
    are_tlvs(body)
}
