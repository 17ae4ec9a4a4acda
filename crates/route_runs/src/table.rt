ghost use Rattle.std.specs.Prelude.{◌≡◌, ◌+◌, ◌++◌, ◌≤◌, [], length, min, Some, IfOk, IsTrue};
ghost use Rattle.std.specs.List.{AllByRecursion, filter};
ghost use Rattle.std.specs.List.Sorted.{IsStrictlySortedBy};
ghost use Rattle.std.specs.Map.{keys_of};
ghost use Rattle.std.specs.Option.{option_map};
ghost use Rattle.bmp_specs.specs.Orders.{nlri_cmp};
ghost use Rattle.bmp_specs.specs.Prefix.{width_of};
ghost use Rattle.route_runs.specs.Longest.{IsLongest};
ghost use Rattle.route_runs.specs.Nlri.{AreNlri, with_family};
ghost use Rattle.route_runs.specs.Origins.{when, with_origin};
ghost use Rattle.route_runs.specs.Override.{value_at};
ghost use Rattle.route_runs.specs.Places.{is_after, is_from};
ghost use Rattle.route_runs.specs.Runs.{shared, IsChanged};
ghost use Rattle.route_runs.specs.Sets.{RoutePasses};
ghost use Rattle.route_runs.specs.Sift.{of_named, sifted};
ghost use Rattle.route_runs.specs.Walk.{left, pairs_from};

use crate::changes::Changes;
use crate::family::FamilyTable;
use crate::listed::Listed;
use crate::longest::longest_by_looks;
use crate::looks::Looks;
use crate::nlri_key::{Key4, Key6};
use crate::origin_walk::{OriginWalk, least};
use crate::sets::{SetTest, all_pass};
use crate::sift::{RouteTest, Sift, SiftWalk};
use crate::table_cursor::{TableCursor, family_of};
use crate::walk::{Place, Walk};
use ip_prefix::{Addr, Family, Nlri, Prefix};
use prefix_trie::Steps;
use rib_model::Route;
use std::alloc::Global;
use std::marker::Model;
use std::sync::ledger::Ledger;
use wire_io::NoMemory;

/// The routes of one peer in one view. It is never changed in place: `with` makes a new table, and both stay
/// readable. Contracts see the NLRI that have a route, each with its attributes, in the order of NLRI.
#[derive(Drop)]
pub struct RouteTable {
    alloc: Global,
    ipv4: FamilyTable<Key4>,
    ipv6: FamilyTable<Key6>,
}

impl Model for RouteTable {
    ghost use Rattle.std.specs.Prelude.{◌++◌, List};
    ghost use Rattle.bmp_specs.specs.Values.{AttrsValue, NlriValue};
    ghost use Rattle.route_runs.specs.Nlri.{AreHalves};

    ghost Value = { List (NlriValue × AttrsValue) };

    ghost view = { λ t. t.ipv4 ++ t.ipv6 };

    ghost invariant = { λ t. AreHalves t.ipv4 t.ipv6 };
}

impl RouteTable {
    /// The table with no route. It takes no memory.
    pub fn new(alloc: Global) -> RouteTable
        ensures { result ≡ [] }
    {
        RouteTable {
            alloc,
            ipv4: FamilyTable::new(alloc),
            ipv6: FamilyTable::new(alloc),
        }
    }

    /// The table with no route, without an index by origin AS: `origin` reads every row from its place on. Tables that
    /// `with` and `share` make of it have none either, so `with` makes them sooner. It takes no memory.
    pub fn unindexed(alloc: Global) -> RouteTable
        ensures { result ≡ [] }
    {
        RouteTable {
            alloc,
            ipv4: FamilyTable::unindexed(alloc),
            ipv6: FamilyTable::unindexed(alloc),
        }
    }

    /// The table with these changes made, one after another; they are taken out of the list, also where
    /// memory runs out. This table stays as it is.
    pub fn with(&self, changes: &mut Changes) -> Result<RouteTable, NoMemory>
        ensures table { IfOk result (IsChanged nlri_cmp self.now changes.old) }
        ensures emptied { changes.new ≡ [] }
    {
        let ipv4 = std::mem::replace(&mut changes.ipv4, Listed::new(self.alloc));
        let ipv6 = std::mem::replace(&mut changes.ipv6, Listed::new(self.alloc));
        let ipv4 = self.ipv4.with(self.alloc, ipv4)?;
        let ipv6 = self.ipv6.with(self.alloc, ipv6)?;
        Ok(RouteTable {
            alloc: self.alloc,
            ipv4,
            ipv6,
        })
    }

    /// The pairs stand in the order of NLRI, and each NLRI is one. It takes no memory, and does nothing: it tells this
    /// to a proof.
    pub fn see_order(&self)
        ensures ordered { IsStrictlySortedBy nlri_cmp (keys_of self.now) }
        ensures nlri { AreNlri self.now }
    {
        // For the proof: the pairs are in order.
        self.ipv4.see_order();
        self.ipv6.see_order();
    }

    /// The route of this NLRI.
    pub fn get(&self, nlri: &Nlri) -> Option<&Route>
        ensures { option_map shared result ≡ value_at nlri_cmp nlri.now self.now }
    {
        match family_of(nlri) {
            Family::V4 => self.ipv4.get(&Key4::of(nlri)),
            Family::V6 => self.ipv6.get(&Key6::of(nlri)),
        }
    }

    /// The longest prefix with a route that holds an address (RFC 1812, section 5.2.4.3), whatever the path
    /// identifier. At most 33 looks for an IPv4 address and 129 for an IPv6 one, each of as many searches by halving
    /// as the table has runs. It takes no memory.
    pub fn longest<L: Ledger>(&self, addr: &Addr, steps: &mut Steps<L>) -> Option<Prefix>
        ensures longest { IsLongest addr.now self.now result }
        ensures cost { steps.new ≤ steps.old + width_of addr.now.family + 1 }
    {
        // For the proof: the pairs are in order.
        self.see_order();
        longest_by_looks(&Looks::new(self.ipv4.rows(), self.ipv6.rows()), addr, steps)
    }

    /// The routes from a place on, in the order of NLRI. It takes no memory.
    pub fn walk(&self, place: Place) -> Walk<'_>
        ensures { result ≡ pairs_from place self.now }
    {
        match place {
            Place::First => self.walk_after(None),
            Place::From(nlri) => self.walk_from(nlri),
            Place::After(nlri) => self.walk_after(Some(nlri)),
        }
    }

    // The routes after an NLRI, or all.
    fn walk_after(&self, nlri: Option<Nlri>) -> Walk<'_>
        ensures { result ≡ filter (λ e. is_after nlri_cmp nlri e.0) self.now }
    {
        Walk {
            cursor: self.cursor(nlri),
            from: None,
        }
    }

    // The routes from an NLRI on.
    fn walk_from(&self, nlri: Nlri) -> Walk<'_>
        ensures { result ≡ filter (λ e. is_from nlri_cmp nlri e.0) self.now }
    {
        Walk {
            cursor: self.cursor(None),
            from: Some(nlri),
        }
    }

    // A walk over the pairs after an NLRI, or over all.
    fn cursor(&self, place: Option<Nlri>) -> TableCursor<'_>
        ensures { result ≡ record { pairs = self.now; place = place } }
    {
        TableCursor {
            ipv4: self.ipv4.rows().cursor(None),
            ipv6: self.ipv6.rows().cursor(None),
            place,
        }
    }

    /// The routes whose path has this origin AS (RFC 6811, section 2), from a place on, in the order of NLRI. It
    /// takes no memory. A step reads the table from row to row, and jumps by the index over rows of other origins, where
    /// the table has one.
    pub fn origin(&self, asn: u32, place: Place) -> OriginWalk<'_>
        ensures { result ≡ pairs_from place (with_origin asn self.now) }
    {
        match place {
            Place::First => self.origin_walk(asn, least(), true),
            Place::From(nlri) => self.origin_walk(asn, nlri, true),
            Place::After(nlri) => self.origin_walk(asn, nlri, false),
        }
    }

    // The routes with this origin after an NLRI, or from it on.
    fn origin_walk(&self, asn: u32, place: Nlri, at: bool) -> OriginWalk<'_>
        ensures left { result ≡ left nlri_cmp (when at place) (record { pairs = with_origin asn self.now; place = Some place }) }
        ensures nlri { AreNlri self.now }
    {
        // For the proof: the pairs are in order.
        self.see_order();
        OriginWalk {
            ipv4: self.ipv4.origins(),
            ipv6: self.ipv6.origins(),
            asn,
            place,
            at,
        }
    }

    /// The routes whose attributes pass a test, in the order of NLRI: those of a family where one is named, else all. It
    /// takes no memory. Routes beside each other with the same list of attributes cost one test, and routes that don't pass
    /// aren't compared.
    pub fn sift<'a, T: RouteTest>(&'a self, family: Option<Family>, test: &'a T) -> SiftWalk<'a, T>
        ensures { result ≡ sifted (T.passes test.now) (of_named family self.now) }
    {
        match family {
            None => SiftWalk {
                ipv4: Some(Sift::new(self.ipv4.rows(), test)),
                ipv6: Some(Sift::new(self.ipv6.rows(), test)),
            },
            Some(family) => self.sift_of(family, test),
        }
    }

    // The same of one family.
    fn sift_of<'a, T: RouteTest>(&'a self, family: Family, test: &'a T) -> SiftWalk<'a, T>
        ensures { result ≡ sifted (T.passes test.now) (with_family family self.now) }
    {
        match family {
            Family::V4 => SiftWalk {
                ipv4: Some(Sift::new(self.ipv4.rows(), test)),
                ipv6: None,
            },
            Family::V6 => SiftWalk {
                ipv4: None,
                ipv6: Some(Sift::new(self.ipv6.rows(), test)),
            },
        }
    }

    /// How many routes there are, or 2^64 - 1 where there are more. Where those of a family are one run, as after a
    /// merge with the oldest, the rows of that run are counted; else it walks over all of them.
    pub fn count(&self) -> u64
        ensures { result ≡ min (length self.now) 18446744073709551615 }
    {
        self.ipv4.count().saturating_add(self.ipv6.count())
    }

    /// How many of them are of a family, counted in the same way: the routes of the other aren't walked over.
    pub fn count_of(&self, family: Family) -> u64
        ensures { result ≡ min (length (with_family family self.now)) 18446744073709551615 }
    {
        match family {
            Family::V4 => self.ipv4.count(),
            Family::V6 => self.ipv6.count(),
        }
    }

    /// Whether it is known at once that each route passes a test: the IPv4 ones have a path identifier where `ipv4` is so
    /// and none elsewhere, the IPv6 ones where `ipv6` is, and the attributes of each pass. Each list of attributes that the
    /// table keeps is tested once, however many routes have it. Those that no route has any more are tested too, until a
    /// merge drops them: so all routes may pass and it isn't known.
    pub fn all_pass<T: SetTest>(&self, ipv4: bool, ipv6: bool) -> bool
        ensures { IsTrue result → AllByRecursion (RoutePasses ipv4 ipv6 T.passes) self.now }
    {
        all_pass::<Key4, T>(self.ipv4.rows(), ipv4) && all_pass::<Key6, T>(self.ipv6.rows(), ipv6)
    }

    /// Whether it is known at once that there is no route. A table whose last route is withdrawn may still have runs,
    /// until these are merged with the oldest one.
    pub fn is_bare(&self) -> bool
        ensures { IsTrue result → self.now ≡ [] }
    {
        self.ipv4.is_bare() && self.ipv6.is_bare()
    }

    /// An equal table, for the price of a counter for each run.
    pub fn share(&self) -> Result<RouteTable, NoMemory>
        ensures { IfOk result (λ copy. copy ≡ self.now) }
    {
        let ipv4 = self.ipv4.share(self.alloc)?;
        let ipv6 = self.ipv6.share(self.alloc)?;
        Ok(RouteTable {
            alloc: self.alloc,
            ipv4,
            ipv6,
        })
    }
}
