ghost use Rattle.std.specs.Prelude.{◌≡◌, ◌↔◌, ◌++◌, [], IsNone, option_to_list};
ghost use Rattle.std.specs.Option.{option_map};
ghost use Rattle.route_runs.specs.Places.{shown};
ghost use Rattle.router_tables.specs.Views.{Table};

use ip_prefix::Nlri;
use rib_model::Route;
use route_runs::{OriginWalk, RouteTest, SiftWalk, Walk};

/// A walk over routes of a table in the order of NLRI.
pub(crate) trait Pairs<'a> {
    /// The pairs that are left.
    ghost left: { Self → Table };

    /// The next NLRI and its route. None exactly where none is left.
    fn next_pair(&mut self) -> Option<(Nlri, &'a Route)>
        ensures next { left self.old ≡ option_to_list (option_map shown result) ++ left self.new }
        ensures none { IsNone result ↔ (left self.old ≡ []) };
}

impl<'a> Pairs<'a> for Walk<'a> {
    ghost left = { λ walk. walk };

    fn next_pair(&mut self) -> Option<(Nlri, &'a Route)> {
        self.next()
    }
}

impl<'a> Pairs<'a> for OriginWalk<'a> {
    ghost left = { λ walk. walk };

    fn next_pair(&mut self) -> Option<(Nlri, &'a Route)> {
        self.next()
    }
}

impl<'a, T: RouteTest> Pairs<'a> for SiftWalk<'a, T> {
    ghost left = { λ walk. walk };

    fn next_pair(&mut self) -> Option<(Nlri, &'a Route)> {
        self.next()
    }
}
