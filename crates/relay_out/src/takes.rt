ghost use Rattle.std.specs.Prelude.{◌≡◌, List, [], ◌∷◌, ◌++◌, IsTrue, Some, length, map};
ghost use Rattle.query_eval.specs.RowRuns.{shown_all};
ghost use Rattle.query_eval.specs.Rows.{row_of};
ghost use Rattle.relay_out.specs.declared.fault.EmitFault.{EmitFault};
ghost use Rattle.relay_out.specs.Handed.{Hands, Looks};
ghost use Rattle.relay_out.specs.Items.{item_value};
ghost use Rattle.relay_out.specs.Messages.{ItemValue, announces};
ghost use Rattle.relay_out.specs.Tables.{table_rows};

use crate::fault::EmitFault;
use crate::item::Item;
use bgp_open::PeerInfo;
use bmp_frames::PeerKey;
use bmp_specs::View;
use ip_prefix::Nlri;
use rib_model::Route;
use route_runs::RouteTable;

/// Takes what messages tell, one after another.
pub(crate) trait Takes {
    /// What the taker is of.
    type Of;

    /// This one is of that.
    ghost of: { Self → Self.Of };

    /// It may be handed this.
    ghost may: { ItemValue → Type 0 };

    /// It took these.
    ghost took: { Self → List ItemValue → Type 0 };

    /// It was stopped at the last of these.
    ghost stopped: { Self → List ItemValue → EmitFault → Type 0 };

    fn take(&mut self, item: &Item<'_>) -> Result<(), EmitFault>
        requires { may (item_value item.now) }
        ensures { Hands of took stopped (item_value item.now ∷ []) self.old result self.new };

    /// Whether the rows of a table count as taken already, so that it needn't be handed them.
    fn has_taken(&self, table: &RouteTable, key: &PeerKey, view: View, info: &PeerInfo) -> bool
        ensures { IsTrue result → (done : List ItemValue) → took self.now done → took self.now (done ++ map (announces info.now) (table_rows key.now view (Some table.now))) };

    /// Looks at the routes of rows that it is handed next, so that they are fetched from memory side by side.
    fn look(
        &mut self,
        key: &PeerKey,
        view: View,
        info: &PeerInfo,
        nlris: &[Nlri],
        routes: &[&Route],
    ) -> Result<(), EmitFault>
        requires { length nlris.now ≡ length routes.now }
        ensures { Looks of took stopped (map (announces info.now) (map (row_of key.now view) (shown_all nlris.now routes.now))) self.old result self.new };
}
