ghost use Rattle.std.specs.Prelude.{◌≡◌};
ghost use Rattle.bmp_specs.specs.MessageBody.{message_type};
ghost use Rattle.bmp_message.specs.Types.{type_in};

use bmp_frames::{
    INITIATION, PEER_DOWN, PEER_UP, ROUTE_MIRRORING, ROUTE_MONITORING, STATISTICS_REPORT,
    TERMINATION,
};

// The messages that have a Per-Peer Header (RFC 7854, section 4.2).
#[derive(Clone, Copy)]
pub(crate) enum PeerMessage {
    RouteMonitoring,
    StatisticsReport,
    PeerDown,
    PeerUp,
    RouteMirroring,
}

// The types of messages (RFC 7854, section 4.1).
#[derive(Clone, Copy)]
pub(crate) enum MessageType {
    OfPeer(PeerMessage),
    Initiation,
    Termination,
    Unknown,
}

impl MessageType {
    // The type of this "Message Type".
    pub(crate) fn of(kind: u8) -> MessageType
        ensures { type_in result ≡ message_type kind }
    {
        match kind {
            ROUTE_MONITORING => MessageType::OfPeer(PeerMessage::RouteMonitoring),
            STATISTICS_REPORT => MessageType::OfPeer(PeerMessage::StatisticsReport),
            PEER_DOWN => MessageType::OfPeer(PeerMessage::PeerDown),
            PEER_UP => MessageType::OfPeer(PeerMessage::PeerUp),
            INITIATION => MessageType::Initiation,
            TERMINATION => MessageType::Termination,
            ROUTE_MIRRORING => MessageType::OfPeer(PeerMessage::RouteMirroring),
            _ => MessageType::Unknown,
        }
    }
}
