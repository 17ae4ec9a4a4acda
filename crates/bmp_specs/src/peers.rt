/// The RIB that a route was seen in: Adj-RIB-In and Adj-RIB-Out, each before and after policy (RFC
/// 7854, section 4.2; RFC 8671, section 4), or the Loc-RIB (RFC 9069, section 4.1).
#[derive(Clone, Copy, Debug, PartialEq, Eq, PartialOrd, Ord)]
pub enum View {
    InPre,
    InPost,
    OutPre,
    OutPost,
    Loc,
}

/// What a Peer Down Notification tells beside its reason (RFC 7854, section 4.9): the code and subcode
/// of the NOTIFICATION, the code of the FSM event, or nothing that is read.
#[derive(Clone, Copy, Debug, PartialEq, Eq)]
pub enum Detail {
    Notified { code: u8, sub: u8 },
    Event(u16),
    Unread,
}
