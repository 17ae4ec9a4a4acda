//! What a yard keeps of a station's end.
ghost use Rattle.std.specs.Prelude.{◌≡◌};
ghost use Rattle.std.specs.Arc.{arc_value};

use cut_publisher::Ending;
use router_tables::RouterTables;

/// What a yard takes when a station has ended: the ending as it is, or nothing of it.
pub trait FromEnding {
    ghost use Rattle.std.specs.Prelude.{ℕ, List};
    ghost use Rattle.cut_publisher.specs.History.{Asker, Fed};
    ghost use Rattle.rib_model.specs.declared.entry.Entry.{Entry};
    ghost use Rattle.router_tables.specs.Tables.{TablesValue};

    /// It shows this cut, and these passes of the lanes and of the askers.
    ghost shows: { Self → List (TablesValue × ℕ) → List (Fed Entry) → List (Asker Entry) → Type 0 };

    /// Keeps what it shows of an ending.
    fn of(ending: Ending<RouterTables>) -> Self
    where
        Self: Sized,
        ensures { shows result (arc_value ending.cut) ending.feeds ending.asks };
}

impl FromEnding for Ending<RouterTables> {
    ghost use Rattle.std.specs.Prelude.{◌≡◌};
    ghost use Rattle.std.specs.Arc.{arc_value};

    ghost shows = { λ e cut feeds asks. (arc_value e.cut ≡ cut) × (e.feeds ≡ feeds) × (e.asks ≡ asks) };

    fn of(ending: Ending<RouterTables>) -> Ending<RouterTables> {
        ending
    }
}

impl FromEnding for () {
    ghost shows = { λ e cut feeds asks. Unit {0} };

    fn of(ending: Ending<RouterTables>) {
        let _ = ending;
    }
}
