ghost use Rattle.std.specs.Prelude.{◌≡◌, [], ◌∷◌, ◌++◌, List, None, IfOk, OnOk};
ghost use Rattle.std.specs.BTreeMap.{is_at};
ghost use Rattle.std.specs.Map.{lookup};
ghost use Rattle.std.specs.Option.{option_map, unwrap_or};
ghost use Rattle.bmp_specs.specs.Orders.{key_cmp, nlri_cmp};
ghost use Rattle.bmp_specs.specs.PeerUp.{Names};
ghost use Rattle.bmp_specs.specs.Values.{EffectValue};
ghost use Rattle.route_runs.specs.Layers.{AreChangedTo};
ghost use Rattle.route_runs.specs.Runs.{shared};
ghost use Rattle.router_tables.specs.Pending.{AreRowsAfter, IsGathered, IsGatheredFor, no_changes};

use crate::views::Views;
use bmp_frames::PeerKey;
use bmp_specs::View;
use ip_prefix::Nlri;
use rib_model::Route;
use route_runs::Changes;
use std::alloc::Global;
use std::collections::BTreeMap;
use std::marker::Model;
use wire_io::NoMemory;

// Changes of one peer's tables that are gathered for each RIB (RFC 7854, section 4.2; RFC 8671, section 4; RFC 9069,
// section 4.1), none where none of its routes changes.
#[derive(Drop)]
pub(crate) struct Pending {
    pub(crate) in_pre: Option<Changes>,
    pub(crate) in_post: Option<Changes>,
    pub(crate) out_pre: Option<Changes>,
    pub(crate) out_post: Option<Changes>,
    pub(crate) loc: Option<Changes>,
}

impl Model for Pending {
    ghost use Rattle.std.specs.Prelude.{[]};
    ghost use Rattle.std.specs.Option.{unwrap_or};
    ghost use Rattle.router_tables.specs.Pending.{PendingValue};

    ghost Value = { PendingValue };

    ghost view = { λ p. record {
      in_pre = unwrap_or p.in_pre [];
      in_post = unwrap_or p.in_post [];
      out_pre = unwrap_or p.out_pre [];
      out_post = unwrap_or p.out_post [];
      loc = unwrap_or p.loc [];
    } };
}

impl Pending {
    // No change in any table.
    pub(crate) fn new() -> Pending
        ensures { result ≡ no_changes }
    {
        Pending {
            in_pre: None,
            in_post: None,
            out_pre: None,
            out_post: None,
            loc: None,
        }
    }

    // Announces a route for these NLRI of a table, or withdraws theirs (RFC 4271, section 4.3).
    pub(crate) fn change(
        &mut self,
        alloc: Global,
        view: View,
        nlris: &[Nlri],
        to: Option<&Route>,
    ) -> Result<(), NoMemory>
        ensures { OnOk result (IsGathered view nlris.now (option_map shared to.entry) self.old self.new) }
    {
        match view {
            View::InPre => change_table(alloc, &mut self.in_pre, nlris, to),
            View::InPost => change_table(alloc, &mut self.in_post, nlris, to),
            View::OutPre => change_table(alloc, &mut self.out_pre, nlris, to),
            View::OutPost => change_table(alloc, &mut self.out_post, nlris, to),
            View::Loc => change_table(alloc, &mut self.loc, nlris, to),
        }
    }
}

// Gathers changes of these NLRI of one table.
fn change_table(
    alloc: Global,
    changes: &mut Option<Changes>,
    nlris: &[Nlri],
    to: Option<&Route>,
) -> Result<(), NoMemory>
    ensures { OnOk result (AreChangedTo nlri_cmp nlris.now (option_map shared to.entry) (unwrap_or changes.old []) (unwrap_or changes.new [])) }
{
    match changes {
        Some(gathered) => change_gathered(gathered, nlris, to),
        None => {
            let mut first = Changes::new(alloc);
            change_gathered(&mut first, nlris, to)?;
            *changes = Some(first);
            Ok(())
        }
    }
}

// Gathers changes of these NLRI with those so far.
fn change_gathered(
    gathered: &mut Changes,
    nlris: &[Nlri],
    to: Option<&Route>,
) -> Result<(), NoMemory>
    ensures { OnOk result (AreChangedTo nlri_cmp nlris.now (option_map shared to.entry) gathered.old gathered.new) }
{
    match to {
        Some(route) => gathered.announce(nlris, route),
        None => gathered.withdraw(nlris),
    }
}

// Gathers changes of these NLRI of one table of a peer.
pub(crate) fn gather(
    alloc: Global,
    pending: &mut BTreeMap<PeerKey, Pending>,
    key: &PeerKey,
    view: View,
    nlris: &[Nlri],
    to: Option<&Route>,
) -> Result<(), NoMemory>
    ensures { OnOk result (IsGatheredFor key.now view nlris.now (option_map shared to.entry) pending.old.entries pending.new.entries) }
{
    match pending.get_mut(key) {
        Some(changes) => changes.change(alloc, view, nlris, to),
        None => gather_first(alloc, pending, key, view, nlris, to),
    }
}

// Gathers the first changes of a peer's tables.
fn gather_first(
    alloc: Global,
    pending: &mut BTreeMap<PeerKey, Pending>,
    key: &PeerKey,
    view: View,
    nlris: &[Nlri],
    to: Option<&Route>,
) -> Result<(), NoMemory>
    ensures { OnOk result (lookup (is_at (key_cmp key.now)) pending.old.entries ≡ None
        → IsGatheredFor key.now view nlris.now (option_map shared to.entry) pending.old.entries pending.new.entries) }
{
    let changes = first_changes(alloc, view, nlris, to)?;
    pending.insert(*key, changes)?;
    Ok(())
}

// Changes of these NLRI of one table, and no others.
fn first_changes(
    alloc: Global,
    view: View,
    nlris: &[Nlri],
    to: Option<&Route>,
) -> Result<Pending, NoMemory>
    ensures { IfOk result (IsGathered view nlris.now (option_map shared to.entry) no_changes) }
{
    let mut changes = Pending::new();
    changes.change(alloc, view, nlris, to)?;
    Ok(changes)
}

// The peer comes up or goes down: its tables go, those of all views, and what is gathered for them (RFC 7854,
// section 4.9).
pub(crate) fn drop_gathered(
    pending: &mut BTreeMap<PeerKey, Pending>,
    tables: &mut BTreeMap<PeerKey, Views>,
    key: &PeerKey,
)
    ensures { (effects : List EffectValue) (effect : EffectValue) → Names key.now effect
        → AreRowsAfter pending.old.entries tables.old.entries effects
        → AreRowsAfter pending.new.entries tables.new.entries (effects ++ effect ∷ []) }
{
    pending.remove(key);
    tables.remove(key);
}
