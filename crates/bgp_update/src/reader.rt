ghost use Rattle.std.specs.Prelude.{◌≡◌, [], IfOk, IfSome, IsErrOf, IsTrue};
ghost use Rattle.std.specs.Arc.{arc_value};
ghost use Rattle.bmp_specs.specs.Update.{IsUpdate};
ghost use Rattle.bmp_specs.specs.Values.{UpdateValue};
ghost use Rattle.bgp_update.specs.Own.{AreOwn};

use crate::body::split_body;
use crate::judge::find_update;
use crate::list::NlriList;
use crate::multi::{make_plain, make_withdrawn};
use crate::read::make_update;
use crate::sizes::item_count;
use crate::update::Update;
use bmp_specs::{IdUse, Width};
use ip_prefix::Family;
use path_attrs::Attrs;
use std::alloc::Global;
use std::marker::Model;
use std::sync::Arc;
use wire_io::{BodyFault, NoMemory};

// The "Path Attributes" of an UPDATE message that had no multiprotocol attributes, and the attributes that they are.
#[derive(Drop)]
struct OwnAttrs {
    field: Vec<u8>,
    width: Width,
    attrs: Arc<Attrs>,
}

impl Model for OwnAttrs {
    ghost use Rattle.std.specs.Arc.{arc_value};
    ghost use Rattle.bmp_specs.specs.Values.{AttrsValue};
    ghost use Rattle.bgp_update.specs.Own.{AreOwn};

    ghost Value = { AttrsValue };

    ghost view = { λ o. arc_value o.attrs };

    ghost invariant = { λ o. AreOwn o.width o.field.items (arc_value o.attrs) };
}

/// Reads UPDATE messages one after another. One with the "Path Attributes" of one before it, octet for octet, shares
/// that one's attributes, as routers send them that put few prefixes into a message: they are then neither judged nor
/// made again. Only the last ones are kept, and none that have multiprotocol attributes. A contract sees nothing of it.
#[derive(Drop)]
pub struct UpdateReader {
    alloc: Global,
    last: Option<OwnAttrs>,
}

impl OwnAttrs {
    // Whether these attributes are the same ones.
    fn are(&self, width: Width, field: &[u8]) -> bool
        ensures { IsTrue result → AreOwn width field.now self.now }
    {
        self.width == width && self.field.as_slice() == field
    }
}

impl UpdateReader {
    /// Has read nothing. It takes no memory.
    pub fn new(alloc: Global) -> UpdateReader {
        UpdateReader { alloc, last: None }
    }

    // The attributes of the body where they are the last ones, with the prefixes that it has; else none.
    fn read_again(&self, body: &[u8], width: Width, ids: IdUse) -> Result<Option<Update>, NoMemory>
        ensures { IfOk result (λ found. IfSome found (IsUpdate width ids body.now)) }
    {
        let Some(last) = &self.last else {
            return Ok(None);
        };
        let Some(fields) = split_body(body) else {
            return Ok(None);
        };
        if fields.nlri.is_empty() || !last.are(width, fields.attributes) {
            return Ok(None);
        }
        let Some(gone) = item_count(Family::V4, ids.v4, fields.withdrawn) else {
            return Ok(None);
        };
        let Some(count) = item_count(Family::V4, ids.v4, fields.nlri) else {
            return Ok(None);
        };
        let withdrawn = make_withdrawn(self.alloc, ids, fields.withdrawn, &None, gone)?;
        let plain = make_plain(self.alloc, ids, fields.nlri, count)?;
        let plain_attrs = Arc::try_clone(&last.attrs)?;
        let multi_attrs = Arc::try_clone(&last.attrs)?;
        Ok(Some(Update {
            withdrawn,
            plain,
            plain_attrs,
            multi: NlriList::new(self.alloc),
            multi_attrs,
            mark: None,
            unread: 0,
        }))
    }

    // The memory of the last attributes, which are let go.
    fn emptied(&mut self) -> Vec<u8>
        ensures { result.items ≡ [] }
    {
        match self.last.take() {
            None => Vec::new(self.alloc),
            Some(own) => {
                let mut field = own.field;
                field.clear();
                field
            }
        }
    }

    // Keeps attributes; none where there is no memory for it.
    fn keep(&mut self, width: Width, bytes: &[u8], attrs: &Arc<Attrs>)
        requires { AreOwn width bytes.now (arc_value attrs.now) }
    {
        let mut field = self.emptied();
        if field.extend_from_slice(bytes).is_err() {
            return;
        }
        let Ok(attrs) = Arc::try_clone(attrs) else {
            return;
        };
        self.last = Some(OwnAttrs {
            field,
            width,
            attrs,
        });
    }

    // Reads the body, whatever attributes are kept, and keeps its own.
    fn read_anew(&mut self, body: &[u8], width: Width, ids: IdUse) -> Result<Update, BodyFault>
        ensures ok { IfOk result (IsUpdate width ids body.now) }
        ensures broken { IsErrOf result BodyFault.Broken → (u : UpdateValue) → IsUpdate width ids body.now u → ⊥ }
    {
        let Some(found) = find_update(body, width, ids) else {
            return Err(BodyFault::Broken);
        };
        let update = make_update(self.alloc, width, ids, &found)?;
        if found.judged.reach.is_none() && found.judged.unreach.is_none() {
            self.keep(width, found.fields.attributes, &update.plain_attrs);
        }
        Ok(update)
    }

    /// Reads the body of an UPDATE message (RFC 4271, section 4.3), all of the bytes, with AS numbers of the width and path
    /// identifiers where `ids` says so (RFC 7911, section 3). `BodyFault::Broken` exactly where the bytes are no such body:
    /// where a field ends past its bytes, the attributes are none, or a field of prefixes isn't prefixes of its family.
    ///
    /// It judges the body as `judge_update` does, and makes the UPDATE of what judging found. Time and memory are linear in
    /// the body, and each list takes its memory at once. Nothing is copied but what the value keeps, and the attributes that
    /// the next message may share.
    pub fn read(&mut self, body: &[u8], width: Width, ids: IdUse) -> Result<Update, BodyFault>
        ensures ok { IfOk result (IsUpdate width ids body.now) }
        ensures broken { IsErrOf result BodyFault.Broken → (u : UpdateValue) → IsUpdate width ids body.now u → ⊥ }
    {
        match self.read_again(body, width, ids)? {
            Some(update) => Ok(update),
            None => self.read_anew(body, width, ids),
        }
    }
}
