//! Steps that are kept.
use super::words::nlri_at;
use crate::line::{Line, number_at};
use bmp_frames::PeerKey;
use bmp_specs::View;
use ip_prefix::{Addr, Nlri};
use path_attrs::Attrs;
use recent_ring::Keep;
use rib_model::{Route, Step};
use std::alloc::Global;
use std::sync::Arc;
use wire_io::NoMemory;

// The Global Instance Peer 192.0.2.1.
fn peer() -> PeerKey {
    PeerKey {
        kind: 0,
        distinguisher: 0,
        address: Addr::v4([192, 0, 2, 1]),
    }
}

// A route that is told from others by its MULTI_EXIT_DISC.
fn route(alloc: Global, med: u32) -> Option<Route> {
    let mut attrs = Attrs::none(alloc);
    attrs.med = Some(med);
    Arc::new(alloc, attrs).ok()
}

fn put_kept(out: &mut Line, kept: &Result<Step, NoMemory>) {
    match kept {
        Ok(Step::Announce { nlri, route, .. }) => {
            out.put_nlri(nlri);
            out.show(" ", &route.med);
        }
        Ok(_) => out.put("other"),
        Err(_) => out.fail(),
    }
}

// The step that is kept of an announcement.
fn put_step(out: &mut Line, nlri: Nlri, route: Route) {
    let step = Step::Announce {
        key: peer(),
        view: View::InPre,
        nlri,
        route,
    };
    let kept = step.keep();
    put_kept(out, &kept);
}

fn put_announced(out: &mut Line, nlri: Nlri, med: u32) {
    match route(out.alloc, med) {
        Some(route) => put_step(out, nlri, route),
        None => out.fail(),
    }
}

pub(crate) fn keep(out: &mut Line, words: &[&str]) {
    match nlri_at(words, 1, 3) {
        Some(nlri) => put_announced(out, nlri, number_at(words, 2)),
        None => out.put("no prefix"),
    }
}
