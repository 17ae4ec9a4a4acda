//! What a publication tells to one asker's pass.
ghost use Rattle.std.specs.Prelude.{◌≡◌};
ghost use Rattle.cut_publisher.specs.History.{saw};
ghost use Rattle.cut_publisher.specs.Rule.{IsLive, site_of};

use crate::cell::Shown;
use crate::subject::Subject;
use std::marker::Model;

/// The cut of one publication, for one pass to learn. Contracts see its station, and the history as
/// it was right after the publication, with no mark in it.
#[derive(Drop)]
pub struct Note<S: Subject + Drop> {
    pub(crate) shown: Shown<S>,
}

impl<S: Subject + Drop> Model for Note<S> {
    ghost use Rattle.cut_publisher.specs.History.{Saw, saw};

    ghost Value = { Saw S.Entry };

    ghost use Rattle.cut_publisher.specs.Rule.{IsLive, site_of};

    ghost view = { λ n. saw (site_of n.shown) n.shown.seen.log };

    ghost invariant = { λ n. IsLive S.stands n.shown };
}

impl<S: Subject + Drop> Note<S> {
    pub(crate) fn of(shown: Shown<S>) -> Note<S>
        requires { IsLive S.stands shown }
        ensures { result ≡ saw (site_of shown) shown.seen.log }
    {
        Note { shown }
    }
}
