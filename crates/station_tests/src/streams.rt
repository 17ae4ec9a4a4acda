//! Messages in hexadecimal digits, with the names of their fields, and their bytes.
//!
//! All are of one router and one peer: type 0, 192.0.2.1 of AS 64500, with the BGP Identifier 192.0.2.1.

use std::alloc::Global;
use wire_io::ByteList;

// A message about the peer: its Common Header (RFC 7854, section 4.1), its Per-Peer Header (section 4.2), and the rest.
macro_rules! of_peer {
    ($length:literal, $kind:literal, $($rest:literal),*) => {
        concat!(
            "03", // version
            $length,
            $kind,
            "0000", // peer type, peer flags
            "0000000000000000", // peer distinguisher
            "000000000000000000000000c0000201", // peer address
            "0000fbf4", // peer AS
            "c0000201", // peer BGP ID
            "0000000000000000", // timestamp
            $($rest),*
        )
    };
}

/// sysDescr `test`, sysName `r1` (RFC 7854, section 4.3).
pub(crate) const INITIATION: &str = concat!(
    "030000001404",     // version, message length, message type
    "0001000474657374", // sysDescr
    "000200027231",     // sysName
);

/// The Peer Up Notification of 192.0.2.1 (RFC 7854, section 4.10).
pub(crate) const PEER_UP: &str = of_peer!(
    "0000009a",                                 // message length
    "03",                                       // message type
    "000000000000000000000000c00002fe",         // local address
    "00b3c350",                                 // local port, remote port
    "ffffffffffffffffffffffffffffffff002b0104", // sent OPEN: marker, length, type, version
    "fbf000b4c00002fe",                         // my AS, hold time, BGP Identifier
    "0e020c01040001000141040000fbf0",           // IPv4 unicast, four-octet AS number 64496
    "ffffffffffffffffffffffffffffffff002b0104", // received OPEN: marker, length, type, version
    "fbf400b4c0000201",                         // my AS, hold time, BGP Identifier
    "0e020c01040001000141040000fbf4"            // IPv4 unicast, four-octet AS number 64500
);

/// The same of a peer whose OPEN has no four-octet AS number (RFC 6793, section 3).
pub(crate) const PEER_UP_OF_TWO_OCTETS: &str = of_peer!(
    "00000094",                                 // message length
    "03",                                       // message type
    "000000000000000000000000c00002fe",         // local address
    "00b3c350",                                 // local port, remote port
    "ffffffffffffffffffffffffffffffff002b0104", // sent OPEN: marker, length, type, version
    "fbf000b4c00002fe",                         // my AS, hold time, BGP Identifier
    "0e020c01040001000141040000fbf0",           // IPv4 unicast, four-octet AS number 64496
    "ffffffffffffffffffffffffffffffff00250104", // received OPEN: marker, length, type, version
    "fbf400b4c0000201",                         // my AS, hold time, BGP Identifier
    "080206010400010001"                        // IPv4 unicast
);

/// 10.0.0.0/8 and 10.1.0.0/16 are announced (RFC 7854, section 4.6; RFC 4271, section 4.3).
pub(crate) const ROUTES: &str = of_peer!(
    "00000060",                               // message length
    "00",                                     // message type
    "ffffffffffffffffffffffffffffffff003002", // UPDATE: marker, length, type
    "00000014",                               // withdrawn routes length, total path attribute length
    "40010100",                               // ORIGIN: IGP
    "40020602010000fbf4",                     // AS_PATH: 64500
    "400304c0000201",                         // NEXT_HOP
    "080a100a01"                              // NLRI
);

/// 10.0.0.0/8 with the path 64500 64501 in two octets each, though the A flag, which says so, is clear (RFC 7854, section
/// 4.2). FRR sends this.
pub(crate) const ROUTE_IN_TWO_OCTETS: &str = of_peer!(
    "0000005d",                               // message length
    "00",                                     // message type
    "ffffffffffffffffffffffffffffffff002d02", // UPDATE: marker, length, type
    "00000014",                               // withdrawn routes length, total path attribute length
    "40010100",                               // ORIGIN: IGP
    "4002060202fbf4fbf5",                     // AS_PATH: 64500 64501, in two octets each
    "400304c0000201",                         // NEXT_HOP
    "080a"                                    // NLRI
);

/// 10.16.0.0/12 is announced with the path 64500; the bits of its NLRI past the twelfth aren't clear.
pub(crate) const ROUTE: &str = of_peer!(
    "0000005e",                               // message length
    "00",                                     // message type
    "ffffffffffffffffffffffffffffffff002e02", // UPDATE: marker, length, type
    "00000014",                               // withdrawn routes length, total path attribute length
    "40010100",                               // ORIGIN: IGP
    "40020602010000fbf4",                     // AS_PATH: 64500
    "400304c0000201",                         // NEXT_HOP
    "0c0a1f"                                  // NLRI
);

/// The same prefix with the path 64501.
pub(crate) const ROUTE_OF_ANOTHER_ORIGIN: &str = of_peer!(
    "0000005e",                               // message length
    "00",                                     // message type
    "ffffffffffffffffffffffffffffffff002e02", // UPDATE: marker, length, type
    "00000014",                               // withdrawn routes length, total path attribute length
    "40010100",                               // ORIGIN: IGP
    "40020602010000fbf5",                     // AS_PATH: 64501
    "400304c0000201",                         // NEXT_HOP
    "0c0a10"                                  // NLRI
);

/// ::/0 and 2001:db8::/32 are announced (RFC 4760, section 3).
pub(crate) const ROUTES_OF_IPV6: &str = of_peer!(
    "00000082",                               // message length
    "00",                                     // message type
    "ffffffffffffffffffffffffffffffff005202", // UPDATE: marker, length, type
    "0000003b",                               // withdrawn routes length, total path attribute length
    "40010100",                               // ORIGIN: IGP
    "40020602010000fbf4",                     // AS_PATH: 64500
    "800e2b000201",                           // MP_REACH_NLRI: IPv6 unicast
    "20",                                     // length of the next hop
    "20010db8000000000000000000000001",       // global next hop
    "fe800000000000000000000000000001",       // link-local next hop
    "00",                                     // reserved
    "2020010db800"                            // NLRI
);

/// 252 prefixes of 24 bits are announced: their NLRI, 1,008 bytes, follows.
pub(crate) const FRONT_OF_252_ROUTES: &str = of_peer!(
    "0000044b",                               // message length
    "00",                                     // message type
    "ffffffffffffffffffffffffffffffff041b02", // UPDATE: marker, length, type
    "00000014",                               // withdrawn routes length, total path attribute length
    "40010100",                               // ORIGIN: IGP
    "40020602010000fbf4",                     // AS_PATH: 64500
    "400304c0000201"                          // NEXT_HOP
);

/// 10.1.0.0/16 is withdrawn.
pub(crate) const WITHDRAWAL: &str = of_peer!(
    "0000004a",                               // message length
    "00",                                     // message type
    "ffffffffffffffffffffffffffffffff001a02", // UPDATE: marker, length, type
    "0003",                                   // withdrawn routes length
    "100a01",                                 // withdrawn routes
    "0000"                                    // total path attribute length
);

/// End-of-RIB for IPv4 (RFC 4724, section 2).
pub(crate) const END_OF_RIB: &str = of_peer!(
    "00000047",                               // message length
    "00",                                     // message type
    "ffffffffffffffffffffffffffffffff001702", // UPDATE: marker, length, type
    "00000000"                                // withdrawn routes length, total path attribute length
);

/// End-of-RIB for IPv6.
pub(crate) const END_OF_RIB_OF_IPV6: &str = of_peer!(
    "0000004d",                               // message length
    "00",                                     // message type
    "ffffffffffffffffffffffffffffffff001d02", // UPDATE: marker, length, type
    "00000006",                               // withdrawn routes length, total path attribute length
    "800f03000201"                            // MP_UNREACH_NLRI: IPv6 unicast
);

/// Three statistics, the first one 5 (RFC 7854, section 4.8).
pub(crate) const STATISTICS: &str = of_peer!(
    "00000057",                     // message length
    "01",                           // message type
    "00000003",                     // Stats Count
    "0000000400000005",             // rejected prefixes
    "000700080000000000000002",     // routes in Adj-RIBs-In
    "0009000b0001010000000000000002" // routes of IPv4 unicast in Adj-RIBs-In
);

/// The remote system closed without a notification (RFC 7854, section 4.9).
pub(crate) const PEER_DOWN: &str = of_peer!(
    "00000031", // message length
    "02",       // message type
    "04"        // reason
);

/// The reason is "Session administratively closed" (RFC 7854, section 4.5).
pub(crate) const TERMINATION: &str = concat!(
    "030000000c05", // version, message length, message type
    "000100020000", // reason
);

/// Version 4.
pub(crate) const VERSION_4: &str = "040000000604";

/// The bytes that these hex digits spell.
pub(crate) fn bytes(alloc: Global, texts: &[&str]) -> Option<ByteList> {
    let mut bytes = ByteList::new(alloc);
    for text in texts {
        put(alloc, &mut bytes, *text)?;
    }
    Some(bytes)
}

/// Appends the bytes.
pub(crate) fn put(alloc: Global, bytes: &mut ByteList, text: &str) -> Option<()> {
    let piece = hex::decode(alloc, text).ok()?;
    bytes.extend(piece.as_slice()).ok()
}
