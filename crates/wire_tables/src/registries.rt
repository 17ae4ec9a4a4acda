ghost use Rattle.std.specs.Prelude.{◌≡◌};
ghost use Rattle.wire_tables.specs.Table.{row_values};
ghost use Rattle.bmp_specs.specs.Registries.{message_types, peer_down_reasons, statistics_types, attribute_types, information_types, capability_codes};

use crate::table::{CodeRow, CodeTable};
use bmp_specs::Shape;

// Each row is a code, its shape and its name.
macro_rules! table {
    ($($code:literal, $shape:expr, $name:literal;)*) => {
        CodeTable {
            rows: [$(CodeRow { code: $code, shape: $shape, name: $name },)*],
        }
    };
}

/// The rows of `attribute_table`, for a macro of the caller's: `attribute_rows!(name given)` is
/// `name! { [given] rows }`. A row is a code, its shape and its name. A reader makes a `match` of them, which
/// takes no search.
#[macro_export]
macro_rules! attribute_rows {
    ($name:ident $($given:tt)*) => {
        $name! {
            [$($given)*]
            1, Shape::Exact(1), "origin";
            2, Shape::Free, "as-path";
            3, Shape::Exact(4), "next-hop";
            4, Shape::Exact(4), "multi-exit-disc";
            5, Shape::Exact(4), "local-pref";
            6, Shape::Exact(0), "atomic-aggregate";
            7, Shape::Free, "aggregator";
            8, Shape::Multiple(4), "communities";
            14, Shape::Free, "mp-reach-nlri";
            15, Shape::Free, "mp-unreach-nlri";
            17, Shape::Free, "as4-path";
            18, Shape::Free, "as4-aggregator";
        }
    };
}

// The table of the rows that `attribute_rows` hands on.
macro_rules! attributes {
    ([] $($rows:tt)*) => {
        table! { $($rows)* }
    };
}

/// BMP message types (RFC 7854, sections 4.1 and 10.1).
pub fn message_table() -> CodeTable<7>
    ensures { row_values result.rows ≡ message_types }
{
    table! {
        0, Shape::Free, "route-monitoring";
        1, Shape::Free, "statistics-report";
        2, Shape::Free, "peer-down";
        3, Shape::Free, "peer-up";
        4, Shape::Free, "initiation";
        5, Shape::Free, "termination";
        6, Shape::Free, "route-mirroring";
    }
}

/// Reasons of a Peer Down Notification (RFC 7854, section 4.9; for 6 RFC 9069, section 5.3). A reason
/// without a row has no name here.
pub fn reason_table() -> CodeTable<6>
    ensures { row_values result.rows ≡ peer_down_reasons }
{
    table! {
        1, Shape::Free, "local-notification";
        2, Shape::Free, "local-event";
        3, Shape::Free, "remote-notification";
        4, Shape::Free, "remote-silent";
        5, Shape::Free, "unmonitored";
        6, Shape::Free, "local-closed";
    }
}

/// BMP statistics types (RFC 7854, section 4.8; from 14 on RFC 8671, section 6.2).
pub fn statistic_table() -> CodeTable<18>
    ensures { row_values result.rows ≡ statistics_types }
{
    table! {
        0, Shape::Counter32, "rejected-by-policy";
        1, Shape::Counter32, "duplicate-announcements";
        2, Shape::Counter32, "duplicate-withdrawals";
        3, Shape::Counter32, "cluster-list-loop";
        4, Shape::Counter32, "as-path-loop";
        5, Shape::Counter32, "originator-id-loop";
        6, Shape::Counter32, "confed-loop";
        7, Shape::Gauge64, "adj-rib-in";
        8, Shape::Gauge64, "loc-rib";
        9, Shape::FamilyGauge64, "adj-rib-in-family";
        10, Shape::FamilyGauge64, "loc-rib-family";
        11, Shape::Counter32, "updates-as-withdraw";
        12, Shape::Counter32, "prefixes-as-withdraw";
        13, Shape::Counter32, "duplicate-updates";
        14, Shape::Gauge64, "adj-rib-out-pre";
        15, Shape::Gauge64, "adj-rib-out-post";
        16, Shape::FamilyGauge64, "adj-rib-out-pre-family";
        17, Shape::FamilyGauge64, "adj-rib-out-post-family";
    }
}

/// Path attribute type codes (RFC 4271, section 5, to 7; RFC 1997 for 8; RFC 4760, sections 3 and 4,
/// for 14 and 15; RFC 6793, section 3, for 17 and 18).
///
/// The reader of path attributes reads exactly these types, and takes their shapes, by `attribute_rows`, which has
/// the rows. Only who lists the registry takes the table, since the line of a route has words of its own for its
/// attributes.
pub fn attribute_table() -> CodeTable<12>
    ensures { row_values result.rows ≡ attribute_types }
{
    attribute_rows!(attributes)
}

/// Types of Information TLVs (RFC 7854, section 4.4; for 3 RFC 9069, section 5.2.1).
///
/// It stands so that the names of the types are stated with their codes, as those of the other registries are. Only
/// who lists the registry takes it: the readers of Initiation and Peer Up have the codes that they tell apart as
/// constants, and replies have words of their own for what these TLVs tell.
pub fn tlv_table() -> CodeTable<4>
    ensures { row_values result.rows ≡ information_types }
{
    table! {
        0, Shape::Free, "string";
        1, Shape::Free, "sysdescr";
        2, Shape::Free, "sysname";
        3, Shape::Free, "table-name";
    }
}

/// Capability codes (RFC 4760, section 8; RFC 6793, section 3; RFC 7911, section 4).
///
/// It stands so that the names of the codes are stated with them, as those of the other registries are. Only who lists
/// the registry takes it: the reader of an OPEN has the three lengths in its own definitions, since they are words of
/// three RFCs.
pub fn capability_table() -> CodeTable<3>
    ensures { row_values result.rows ≡ capability_codes }
{
    table! {
        1, Shape::Exact(4), "multiprotocol";
        65, Shape::Exact(4), "four-byte-as";
        69, Shape::Multiple(4), "add-path";
    }
}
