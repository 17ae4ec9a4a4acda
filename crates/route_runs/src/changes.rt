ghost use Rattle.std.specs.Prelude.{◌≡◌, ◌++◌, [], None, Some, IfOk, OnOk, OnErr};
ghost use Rattle.std.specs.Arc.{arc_value};
ghost use Rattle.std.specs.List.{All};
ghost use Rattle.std.specs.Option.{option_map};
ghost use Rattle.bmp_specs.specs.Orders.{nlri_cmp};
ghost use Rattle.route_runs.specs.Layers.{AreChangedTo};
ghost use Rattle.route_runs.specs.Nlri.{of_family, AreHalves, AreKeys, IsNlri, IsNlriOf};
ghost use Rattle.route_runs.specs.Runs.{shared};

use crate::key_address::KeyAddress;
use crate::listed::Listed;
use crate::listed_nlri::has_family;
use crate::nlri_key::{Key4, Key6, NlriKey};
use crate::see::see_all;
use ip_prefix::Nlri;
use path_attrs::Attrs;
use rib_model::Route;
use std::alloc::Global;
use std::marker::Model;
use std::sync::Arc;
use wire_io::NoMemory;

/// Changes of routes that are gathered before a table is made with them, those of IPv4 and those of IPv6. They are
/// listed as they come, and sorted once, by `RouteTable::with`. Contracts see what each NLRI is changed to, a route or
/// none, in the order of NLRI; of several changes of one NLRI the last one.
#[derive(Drop)]
pub struct Changes {
    alloc: Global,
    pub(crate) ipv4: Listed<Key4, Attrs>,
    pub(crate) ipv6: Listed<Key6, Attrs>,
}

impl Model for Changes {
    ghost use Rattle.std.specs.Prelude.{◌++◌, List, Option};
    ghost use Rattle.bmp_specs.specs.Values.{AttrsValue, NlriValue};
    ghost use Rattle.route_runs.specs.Nlri.{AreHalves};

    ghost Value = { List (NlriValue × Option AttrsValue) };

    ghost view = { λ c. c.ipv4 ++ c.ipv6 };

    ghost invariant = { λ c. AreHalves c.ipv4 c.ipv6 };
}

impl Changes {
    /// No change. It takes no memory.
    pub fn new(alloc: Global) -> Changes
        ensures { result ≡ [] }
    {
        Changes {
            alloc,
            ipv4: Listed::new(alloc),
            ipv6: Listed::new(alloc),
        }
    }

    /// Announces a route for each of these NLRI, those of one UPDATE message (RFC 4271, section 4.3). Out of
    /// memory, no change is left.
    pub fn announce(&mut self, nlri: &[Nlri], route: &Route) -> Result<(), NoMemory>
        ensures ok { OnOk result (AreChangedTo nlri_cmp nlri.now (Some (arc_value route.now)) self.old self.new) }
        ensures err { OnErr result (self.new ≡ []) }
    {
        self.change(nlri, Some(route))
    }

    /// Withdraws the routes of these NLRI (RFC 4271, section 4.3), whether or not a table has them. Out of
    /// memory, no change is left.
    pub fn withdraw(&mut self, nlri: &[Nlri]) -> Result<(), NoMemory>
        ensures ok { OnOk result (AreChangedTo nlri_cmp nlri.now None self.old self.new) }
        ensures err { OnErr result (self.new ≡ []) }
    {
        self.change(nlri, None)
    }

    // Changes each of these NLRI to a route, or to none.
    fn change(&mut self, nlri: &[Nlri], to: Option<&Route>) -> Result<(), NoMemory>
        ensures ok { OnOk result (AreChangedTo nlri_cmp nlri.now (option_map shared to.entry) self.old self.new) }
        ensures err { OnErr result (self.new ≡ []) }
    {
        see_all(nlri);
        match change_both(self.alloc, &mut self.ipv4, &mut self.ipv6, nlri, to) {
            Ok(_) => Ok(()),
            Err(_) => {
                self.ipv4 = Listed::new(self.alloc);
                self.ipv6 = Listed::new(self.alloc);
                Err(NoMemory)
            }
        }
    }
}

// Changes each of these NLRI in the half of its family.
fn change_both(
    alloc: Global,
    ipv4: &mut Listed<Key4, Attrs>,
    ipv6: &mut Listed<Key6, Attrs>,
    nlri: &[Nlri],
    to: Option<&Route>,
) -> Result<(), NoMemory>
    requires nlri { All IsNlri nlri.now }
    requires halves { AreHalves ipv4.old ipv6.old }
    ensures halves { OnOk result (AreHalves ipv4.new ipv6.new) }
    ensures changed { OnOk result (AreChangedTo nlri_cmp nlri.now (option_map shared to.entry) (ipv4.old ++ ipv6.old) (ipv4.new ++ ipv6.new)) }
{
    change_half(alloc, ipv4, nlri, to)?;
    change_half(alloc, ipv6, nlri, to)?;
    Ok(())
}

// Changes the NLRI of one family.
fn change_half<N: KeyAddress>(
    alloc: Global,
    half: &mut Listed<NlriKey<N>, Attrs>,
    nlri: &[Nlri],
    to: Option<&Route>,
) -> Result<(), NoMemory>
    requires nlri { All IsNlri nlri.now }
    requires keys { AreKeys (IsNlriOf N.family) half.old }
    ensures keys { OnOk result (AreKeys (IsNlriOf N.family) half.new) }
    ensures changed { OnOk result (AreChangedTo nlri_cmp (of_family N.family nlri.now) (option_map shared to.entry) half.old half.new) }
{
    if !has_family(nlri, N::its_family()) {
        // For the proof: the pairs are in order.
        half.see_order();
        return Ok(());
    }
    let set = share(to)?;
    let taken = std::mem::replace(half, Listed::new(alloc));
    *half = taken.add(alloc, nlri, set)?;
    Ok(())
}

// The route once more, where there is one.
fn share(to: Option<&Route>) -> Result<Option<Route>, NoMemory>
    ensures { IfOk result (λ set. option_map arc_value set ≡ option_map shared to.entry) }
{
    let Some(route) = to else {
        return Ok(None);
    };
    match Arc::try_clone(route) {
        Ok(route) => Ok(Some(route)),
        Err(_) => Err(NoMemory),
    }
}
