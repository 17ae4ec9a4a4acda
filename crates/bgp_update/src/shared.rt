ghost use Rattle.std.specs.Prelude.{◌≡◌, Some, IfOk, OnOk};
ghost use Rattle.std.specs.Arc.{arc_value};
ghost use Rattle.std.specs.Option.{option_map};
ghost use Rattle.bmp_specs.specs.Update.{with_hop_of};
ghost use Rattle.path_attrs.specs.Judged.{mp_value};

use path_attrs::{Attrs, MpSlice};
use std::alloc::Global;
use std::sync::Arc;
use wire_io::{ByteList, NoMemory};

// The attributes of the routes of an UPDATE.
#[derive(Drop)]
pub(crate) struct SharedAttrs {
    // those of the prefixes in its last field
    pub(crate) plain: Arc<Attrs>,

    // those of the prefixes in MP_REACH_NLRI
    pub(crate) multi: Arc<Attrs>,
}

// The attributes, to be shared.
#[inline(always)]
pub(crate) fn to_share(alloc: Global, attrs: Attrs) -> Result<Arc<Attrs>, NoMemory>
    ensures { IfOk result (λ shared. arc_value shared ≡ attrs) }
{
    Ok(Arc::new(alloc, attrs)?)
}

// Equal attributes but for the hop, which is that of MP_REACH_NLRI. Their own hop isn't copied.
fn with_hop(alloc: Global, attrs: &mut Attrs, part: &MpSlice<'_>) -> Result<Attrs, NoMemory>
    ensures ok { IfOk result (λ multi. multi ≡ with_hop_of (Some (mp_value part.now)) attrs.old) }
    ensures same { OnOk result (attrs.new ≡ attrs.old) }
{
    let own = attrs.hop.take();
    let mut multi = attrs.copy()?;
    let mut hop = ByteList::new(alloc);
    hop.extend(part.hop)?;
    multi.hop = Some(hop);
    attrs.hop = own;
    Ok(multi)
}

// Shares the attributes: one set for both fields where there is no MP_REACH_NLRI.
pub(crate) fn share(
    alloc: Global,
    attrs: Attrs,
    reach: &Option<MpSlice<'_>>,
) -> Result<SharedAttrs, NoMemory>
    ensures plain { IfOk result (λ shared. arc_value shared.plain ≡ attrs) }
    ensures multi { IfOk result (λ shared. arc_value shared.multi ≡ with_hop_of (option_map mp_value reach.now) attrs) }
{
    match reach {
        None => share_one(alloc, attrs),
        Some(part) => share_two(alloc, attrs, part),
    }
}

// One set for both fields.
fn share_one(alloc: Global, attrs: Attrs) -> Result<SharedAttrs, NoMemory>
    ensures plain { IfOk result (λ shared. arc_value shared.plain ≡ attrs) }
    ensures multi { IfOk result (λ shared. arc_value shared.multi ≡ attrs) }
{
    let plain = to_share(alloc, attrs)?;
    let multi = Arc::try_clone(&plain)?;
    Ok(SharedAttrs { plain, multi })
}

// A set for each field, which differ in the hop.
#[inline(never)]
fn share_two(alloc: Global, mut attrs: Attrs, part: &MpSlice<'_>) -> Result<SharedAttrs, NoMemory>
    ensures plain { IfOk result (λ shared. arc_value shared.plain ≡ attrs) }
    ensures multi { IfOk result (λ shared. arc_value shared.multi ≡ with_hop_of (Some (mp_value part.now)) attrs) }
{
    let other = with_hop(alloc, &mut attrs, part)?;
    let plain = to_share(alloc, attrs)?;
    let multi = to_share(alloc, other)?;
    Ok(SharedAttrs { plain, multi })
}
