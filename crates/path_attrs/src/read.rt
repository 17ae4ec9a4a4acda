ghost use Rattle.std.specs.Prelude.{◌≡◌, ◌≤◌, ℕ, IfSome, IfOk, IsErrOf};
ghost use Rattle.bmp_specs.specs.Attributes.{AreAttributes, as4_aggregator};
ghost use Rattle.bmp_specs.specs.Values.{AttrsReadValue};
ghost use Rattle.path_attrs.specs.Field.{value_at};
ghost use Rattle.path_attrs.specs.Judged.{FitsType, IsJudged};
ghost use Rattle.path_attrs.specs.declared.judge.Judged.{Judged};
ghost use Rattle.path_attrs.specs.Valued.{HaveValues};

use crate::as_info::make_as_info;
use crate::attrs::Attrs;
use crate::codes::{
    ATOMIC_AGGREGATE, COMMUNITIES, LOCAL_PREF, MULTI_EXIT_DISC, NEXT_HOP, ORIGIN, PLACES,
};
use crate::judge::judge_attrs;
use crate::keep::gather;
use crate::mp::{MpPart, make_part};
use crate::others::OtherList;
use crate::values::{is_there, make_communities, make_hop, number, octet};
use as_path::Width;
use std::alloc::Global;
use std::marker::Model;
use wire_io::{BodyFault, NoMemory};

/// The path attributes of an UPDATE, as one field of it has them.
#[derive(Drop)]
pub struct AttrsRead {
    /// The attributes of the routes.
    pub attrs: Attrs,

    /// MP_REACH_NLRI (RFC 4760, section 3).
    pub reach: Option<MpPart>,

    /// MP_UNREACH_NLRI (RFC 4760, section 4).
    pub unreach: Option<MpPart>,

    /// How many attributes the field has.
    pub count: u32,
}

impl Model for AttrsRead {
    ghost use Rattle.bmp_specs.specs.Values.{AttrsReadValue};

    ghost Value = { AttrsReadValue };

    ghost view = { λ r. record { attrs = r.attrs; reach = r.reach; unreach = r.unreach; count = r.count } };
}

// The attributes of the routes, of the values at their types and the attributes of all other types.
fn make_own(
    alloc: Global,
    values: &[Option<&[u8]>; PLACES],
    width: Width,
    others: OtherList,
) -> Result<Attrs, NoMemory>
    requires { (code : ℕ) → code ≤ as4_aggregator → IfSome (value_at values.now code) (λ value. FitsType width code value) }
    ensures { IfOk result (HaveValues width (value_at values.now) others) }
{
    let hop = make_hop(alloc, values[NEXT_HOP as usize])?;
    let communities = make_communities(alloc, values[COMMUNITIES as usize])?;
    let info = make_as_info(alloc, values, width)?;
    Ok(Attrs {
        origin: octet(values[ORIGIN as usize]),
        path: info.path,
        hop,
        med: number(values[MULTI_EXIT_DISC as usize]),
        pref: number(values[LOCAL_PREF as usize]),
        atomic: is_there(values[ATOMIC_AGGREGATE as usize]),
        aggregator: info.aggregator,
        communities,
        others,
    })
}

/// Makes the attributes of the routes of a field that was judged. It tests nothing again, and reads each header once
/// more to find the values. Time and memory are linear in the field.
#[inline(never)]
pub fn make_attrs(alloc: Global, field: &[u8], width: Width) -> Result<Attrs, NoMemory>
    requires { (judged : Judged) × IsJudged width field.now judged }
    ensures { IfOk result (λ attrs. (read : AttrsReadValue) → AreAttributes width field.now read → attrs ≡ read.attrs) }
{
    let mut values = [None; PLACES];
    let mut others = OtherList::new(alloc);
    gather(alloc, field, &mut values, &mut others)?;
    make_own(alloc, &values, width, others)
}

/// Reads the "Path Attributes" of an UPDATE message (RFC 4271, section 4.3), with AS numbers of the
/// width: judges them, and then makes them. `BodyFault::Broken` exactly where `judge_attrs` answers `None`.
pub fn read_attrs(alloc: Global, field: &[u8], width: Width) -> Result<AttrsRead, BodyFault>
    ensures ok { IfOk result (AreAttributes width field.now) }
    ensures broken { IsErrOf result BodyFault.Broken → (read : AttrsReadValue) → AreAttributes width field.now read → ⊥ }
{
    let Some(judged) = judge_attrs(field, width) else {
        return Err(BodyFault::Broken);
    };
    let attrs = make_attrs(alloc, field, width)?;
    let reach = make_part(alloc, &judged.reach)?;
    let unreach = make_part(alloc, &judged.unreach)?;
    Ok(AttrsRead {
        attrs,
        reach,
        unreach,
        count: judged.count,
    })
}
