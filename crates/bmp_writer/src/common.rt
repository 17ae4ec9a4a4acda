ghost use Rattle.std.specs.Prelude.{◌≡◌, ◌+◌, ◌≤◌, [], ◌∷◌, ◌++◌, length, take};
ghost use Rattle.byteorder.specs.Endian.{big_bytes};

use bmp_frames::VERSION;

/// Puts the piece at a place of the frame, and tells where it ends.
pub(crate) fn put(frame: &mut [u8], at: usize, piece: &[u8]) -> usize
    requires { at + length piece.now ≤ length frame.old }
    ensures end { result ≡ at + length piece.now }
    ensures size { length frame.new ≡ length frame.old }
    ensures front { take result frame.new ≡ take at frame.old ++ piece.now }
{
    let end = at + piece.len();
    frame[at..end].copy_from_slice(piece);
    end
}

/// The common header of a message with so many bytes (RFC 7854, section 4.1).
pub(crate) fn common_header(kind: u8, length: u32) -> [u8; 6]
    ensures { result ≡ 3 ∷ (big_bytes 4 length ++ kind ∷ []) }
{
    let [a, b, c, d] = length.to_be_bytes();
    [VERSION, a, b, c, d, kind]
}
