ghost use Rattle.std.specs.Prelude.{◌≡◌};
ghost use Rattle.std.specs.Arc.{arc_value};
ghost use Rattle.bmp_message.specs.Lenient.{forms_at, nothing_shown, with_forms, with_shown_in};
ghost use Rattle.bmp_message.specs.State.{opens_of};

use crate::forms::Forms;
use bgp_open::PeerInfo;
use bmp_frames::View;
use std::marker::Model;
use std::sync::Arc;

// The forms of the last UPDATE message of a peer in each view.
#[derive(Drop)]
pub(crate) struct Shown {
    in_pre: Forms,
    in_post: Forms,
    out_pre: Forms,
    out_post: Forms,
    loc: Forms,
}

impl Model for Shown {
    ghost use Rattle.bmp_message.specs.Lenient.{ShownValue};

    ghost Value = { ShownValue };

    ghost view = { λ s. record { in_pre = s.in_pre; in_post = s.in_post; out_pre = s.out_pre; out_post = s.out_post; loc = s.loc } };
}

impl Shown {
    // None was read.
    fn nothing() -> Shown
        ensures { result ≡ nothing_shown }
    {
        Shown {
            in_pre: Forms::as_agreed(),
            in_post: Forms::as_agreed(),
            out_pre: Forms::as_agreed(),
            out_post: Forms::as_agreed(),
            loc: Forms::as_agreed(),
        }
    }

    // The forms in a view.
    fn at(&self, view: View) -> Forms
        ensures { result ≡ forms_at self.now view }
    {
        match view {
            View::InPre => self.in_pre,
            View::InPost => self.in_post,
            View::OutPre => self.out_pre,
            View::OutPost => self.out_post,
            View::Loc => self.loc,
        }
    }

    // Sets the forms in a view.
    fn set(&mut self, view: View, forms: &Forms)
        ensures { self.new ≡ with_forms self.old view forms.now }
    {
        match view {
            View::InPre => self.in_pre = *forms,
            View::InPost => self.in_post = *forms,
            View::OutPre => self.out_pre = *forms,
            View::OutPost => self.out_post = *forms,
            View::Loc => self.loc = *forms,
        }
    }
}

// A peer that is up.
#[derive(Drop)]
pub(crate) struct UpPeer {
    // What its Peer Up told, or what its first routes imply.
    info: Arc<PeerInfo>,

    // Since it is up.
    shown: Shown,

    // Whether it is a Loc-RIB of which a Peer Up told.
    told: bool,
}

impl Model for UpPeer {
    ghost use Rattle.std.specs.Arc.{arc_value};
    ghost use Rattle.bmp_message.specs.Lenient.{UpPeerValue};
    ghost use Rattle.bmp_message.specs.State.{opens_of};

    ghost Value = { UpPeerValue };

    ghost view = { λ p. record { opens = opens_of (arc_value p.info); told = p.told; shown = p.shown } };
}

impl UpPeer {
    // One of which nothing was read yet.
    pub(crate) fn new(info: Arc<PeerInfo>, told: bool) -> UpPeer
        ensures { result ≡ record { opens = opens_of (arc_value info); told = told; shown = nothing_shown } }
    {
        UpPeer {
            info,
            shown: Shown::nothing(),
            told,
        }
    }

    // What was told of it, or implied.
    pub(crate) fn info(&self) -> &Arc<PeerInfo>
        ensures { opens_of (arc_value result.now) ≡ self.now.opens }
    {
        &self.info
    }

    // Whether it is a Loc-RIB of which a Peer Up told.
    pub(crate) fn told(&self) -> bool
        ensures { result ≡ self.now.told }
    {
        self.told
    }

    // The forms of the last UPDATE message in a view.
    pub(crate) fn shown(&self, view: View) -> Forms
        ensures { result ≡ forms_at self.now.shown view }
    {
        self.shown.at(view)
    }

    // An UPDATE message was read in these forms.
    pub(crate) fn show(&mut self, view: View, forms: &Forms)
        ensures { self.new ≡ record self.old { shown = with_forms self.old.shown view forms.now } }
    {
        self.shown.set(view, forms);
    }
}

// An UPDATE message of a peer was read in these forms, where it is up.
pub(crate) fn show_in(peer: &mut Option<UpPeer>, view: View, forms: &Forms)
    ensures { peer.new ≡ with_shown_in peer.old view forms.now }
{
    if let Some(peer) = peer {
        peer.show(view, forms);
    }
}
