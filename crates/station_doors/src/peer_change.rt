use bmp_frames::PeerKey;

/// A peer of a router that went up or down.
#[derive(Clone, Copy)]
pub enum PeerChange<'a> {
    /// A Peer Up Notification told so (RFC 7854, section 4.10).
    Up {
        /// The peer.
        key: PeerKey,

        /// "Peer AS" of the Per-Peer Header.
        asn: u32,
    },

    /// A Peer Down Notification told so (RFC 7854, section 4.9).
    Down {
        /// The peer.
        key: PeerKey,

        /// "Reason".
        code: u8,

        /// The name of that reason.
        reason: &'a str,
    },
}
