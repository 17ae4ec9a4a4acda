ghost use Rattle.std.specs.Prelude.{◌≡◌, ◌↔◌, ◌++◌, [], IsNone, option_to_list};
ghost use Rattle.std.specs.Option.{option_map};
ghost use Rattle.route_runs.specs.Places.{shown};

use crate::table_cursor::TableCursor;
use ip_prefix::Nlri;
use rib_model::Route;
use std::marker::Model;

/// Where a walk over a table begins.
#[derive(Clone, Copy, Debug, PartialEq, Eq)]
pub enum Place {
    /// At the first pair.
    First,

    /// At the pair of this NLRI, or at the first one after it.
    From(Nlri),

    /// At the first pair after this NLRI.
    After(Nlri),
}

/// A walk over the routes of a table in the order of NLRI. Contracts see the pairs that are left. It takes no
/// memory.
#[derive(Drop)]
pub struct Walk<'a> {
    pub(crate) cursor: TableCursor<'a>,
    pub(crate) from: Option<Nlri>,
}

impl<'a> Model for Walk<'a> {
    ghost use Rattle.std.specs.Prelude.{List};
    ghost use Rattle.bmp_specs.specs.Orders.{nlri_cmp};
    ghost use Rattle.bmp_specs.specs.Values.{AttrsValue, NlriValue};
    ghost use Rattle.route_runs.specs.Walk.{left};

    ghost Value = { List (NlriValue × AttrsValue) };

    ghost view = { λ w. left nlri_cmp w.from w.cursor };
}

impl<'a> Walk<'a> {
    /// The next NLRI and its route. `None` exactly where none is left.
    pub fn next(&mut self) -> Option<(Nlri, &'a Route)>
        ensures next { self.old ≡ option_to_list (option_map shown result) ++ self.new }
        ensures none { IsNone result ↔ (self.old ≡ []) }
    {
        match self.from {
            None => self.cursor.next(),
            Some(nlri) => {
                self.from = None;
                self.cursor.from(nlri)
            }
        }
    }
}
