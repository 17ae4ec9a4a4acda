ghost use Rattle.std.specs.Prelude.{◌≡◌, ◌≤◌, IfOk};
ghost use Rattle.std.specs.Option.{option_map};
ghost use Rattle.bmp_specs.specs.FramedUpdate.{FitsFamily};
ghost use Rattle.bmp_specs.specs.TreatAsWithdraw.{IsTreatedAsWithdraw};
ghost use Rattle.bmp_specs.specs.Update.{passed_over};
ghost use Rattle.bmp_specs.specs.declared.wire.Family.TheVariants.{V4, V6};
ghost use Rattle.path_attrs.specs.Judged.{mp_value};
ghost use Rattle.bgp_update.specs.Framed.{framed_value};

use crate::frame::{FramedUpdate, contained_routes};
use crate::list::NlriList;
use crate::multi::passed_over;
use crate::shared::to_share;
use crate::update::Update;
use bmp_specs::IdUse;
use path_attrs::Attrs;
use std::alloc::Global;
use std::sync::Arc;
use wire_io::NoMemory;

/// The UPDATE message "treated as though all contained routes had been withdrawn" (RFC 7606, section 2), place by
/// place. Its attributes count as one part that wasn't read, and so does each multiprotocol attribute of a family that
/// isn't read.
pub fn treat_as_withdraw(
    alloc: Global,
    framed: &FramedUpdate<'_>,
    ids: IdUse,
) -> Result<Update, NoMemory>
    requires v4 { FitsFamily (framed_value framed.now) V4 ids.v4 }
    requires v6 { FitsFamily (framed_value framed.now) V6 ids.v6 }
    ensures { IfOk result (IsTreatedAsWithdraw ids (framed_value framed.now)) }
{
    let withdrawn = contained_routes(alloc, framed, ids)?;
    let unread = 1 + (passed_over(&framed.reach) + passed_over(&framed.unreach));
    let plain_attrs = to_share(alloc, Attrs::none(alloc))?;
    let multi_attrs = Arc::try_clone(&plain_attrs)?;
    Ok(Update {
        withdrawn,
        plain: NlriList::new(alloc),
        plain_attrs,
        multi: NlriList::new(alloc),
        multi_attrs,
        mark: None,
        unread,
    })
}
