ghost use Rattle.std.specs.Prelude.{◌≡◌, ◌++◌, IfOk, List, ℕ};
ghost use Rattle.std.specs.Option.{option_map};
ghost use Rattle.bmp_specs.specs.AddressFamily.{uses_ids};
ghost use Rattle.bmp_specs.specs.Nlri.{AreNlri};
ghost use Rattle.bmp_specs.specs.Update.{AreMpNlri, IsUpdate};
ghost use Rattle.bmp_specs.specs.Values.{NlriValue, UpdateValue};
ghost use Rattle.bmp_specs.specs.declared.wire.Family.TheVariants.{V4};
ghost use Rattle.path_attrs.specs.Judged.{IsJudged, mp_value};
ghost use Rattle.bgp_update.specs.Found.{HasFound};

use crate::judge::Found;
use crate::list::NlriList;
use crate::multi::{end_of_rib, make_multi, make_plain, make_withdrawn, passed_over};
use crate::shared::share;
use crate::update::Update;
use bmp_specs::{IdUse, Width};
use path_attrs::make_attrs;
use std::alloc::Global;
use wire_io::NoMemory;

// The prefixes of an UPDATE.
#[derive(Drop)]
struct Lists {
    withdrawn: NlriList,
    plain: NlriList,
    multi: NlriList,
}

// Makes them, each list with as much memory as it takes.
#[inline(always)]
fn make_lists(alloc: Global, ids: IdUse, found: &Found<'_>) -> Result<Lists, NoMemory>
    ensures withdrawn { IfOk result (λ l. (gone lost : List NlriValue) → AreNlri V4 (uses_ids ids V4) found.now.fields.withdrawn.now gone
        → AreMpNlri ids (option_map mp_value found.now.judged.unreach) lost → l.withdrawn ≡ gone ++ lost) }
    ensures plain { IfOk result (λ l. (ns : List NlriValue) → AreNlri V4 (uses_ids ids V4) found.now.fields.nlri.now ns → l.plain ≡ ns) }
    ensures multi { IfOk result (λ l. (ns : List NlriValue) → AreMpNlri ids (option_map mp_value found.now.judged.reach) ns → l.multi ≡ ns) }
{
    let fields = found.fields;
    let unreach = &found.judged.unreach;
    let withdrawn = make_withdrawn(alloc, ids, fields.withdrawn, unreach, found.withdrawn)?;
    let plain = make_plain(alloc, ids, fields.nlri, found.plain)?;
    let multi = make_multi(alloc, ids, &found.judged.reach, found.multi)?;
    Ok(Lists {
        withdrawn,
        plain,
        multi,
    })
}

// Makes the UPDATE of what judging its body found.
#[inline(always)]
pub(crate) fn make_update(
    alloc: Global,
    width: Width,
    ids: IdUse,
    found: &Found<'_>,
) -> Result<Update, NoMemory>
    requires { IsJudged width found.now.fields.attributes.now found.now.judged }
    ensures { IfOk result (λ u. (body : List ℕ) → HasFound width ids body found.now → IsUpdate width ids body u) }
{
    let attrs = make_attrs(alloc, found.fields.attributes, width)?;
    let shared = share(alloc, attrs, &found.judged.reach)?;
    let lists = make_lists(alloc, ids, found)?;
    Ok(Update {
        withdrawn: lists.withdrawn,
        plain: lists.plain,
        plain_attrs: shared.plain,
        multi: lists.multi,
        multi_attrs: shared.multi,
        mark: end_of_rib(found.fields.withdrawn, &found.judged, found.fields.nlri),
        unread: passed_over(&found.judged.reach) + passed_over(&found.judged.unreach),
    })
}
