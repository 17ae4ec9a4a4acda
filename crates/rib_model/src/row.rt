ghost use Rattle.std.specs.Prelude.{◌≡◌};
ghost use Rattle.std.proofs.Common.{rules};
ghost use Rattle.std.specs.Cmp.{partial_order_from_own_ties, partial_order_from_total};
ghost use Rattle.std.specs.Cmp.Rules.{comparing};
ghost use Rattle.std.specs.Ordering.{as_partial_cmp};
ghost use Rattle.bmp_specs.specs.TableRows.{row_key_cmp};
ghost use Rattle.bmp_specs.proofs.OrderLaws.{row_key_total};
ghost use Rattle.rib_model.specs.RowTies.{row_tied};

use bmp_frames::PeerKey;
use bmp_specs::View;
use ip_prefix::Nlri;
use std::cmp::Ordering;
use std::marker::Model;

/// Where a row stands: its peer, the RIB that the route was seen in, and the route's NLRI. Rows are
/// ordered so, which is our choice; no path identifier comes before every one.
#[derive(Clone, Copy, Debug, PartialEq, Eq)]
pub struct RowKey {
    /// The peer that the route is of.
    pub key: PeerKey,
    /// The RIB.
    pub view: View,
    /// The prefix, and the path identifier where there is one (RFC 7911, section 3).
    pub nlri: Nlri,
}

impl Model for RowKey {
    ghost use Rattle.bmp_specs.specs.Rows.{RowKeyValue};

    ghost Value = { RowKeyValue };

    ghost view = { λ r. record { key = r.key; view = r.view; nlri = r.nlri } };

    ghost inverse = { λ v. record { key = v.key; view = v.view; nlri = v.nlri } };
}

impl Ord for RowKey {
    ghost cmp = { row_key_cmp };

    ghost total = { row_key_total };

    ghost matches_partial_cmp = { Prim.search (comparing, rules) depth 9 };

    ghost matches_eq = { row_tied };

    // The peer decides, then the view, then the prefix and the identifier.
    fn cmp(&self, other: &RowKey) -> Ordering {
        self.key.cmp(&other.key).then(self.view.cmp(&other.view).then(self.nlri.cmp(&other.nlri)))
    }
}

impl PartialOrd for RowKey {
    ghost partial_cmp = { as_partial_cmp row_key_cmp };

    ghost laws = { partial_order_from_own_ties (partial_order_from_total row_key_total) row_tied };

    fn partial_cmp(&self, other: &RowKey) -> Option<Ordering> {
        Some(self.cmp(other))
    }
}
