use crate::counts::Counts;
use crate::passed::Passed;
use rib_model::Opening;
use std::marker::Model;

/// The last connection of a router, open or closed: what it told and counted.
#[derive(Drop)]
pub struct Connection<'a> {
    /// From where it came, and when it was opened.
    pub came: Opening,

    /// When it was closed, in seconds since 1970 by the station's clock. None where it is open, or where that isn't told.
    pub until: Option<u64>,

    /// How many of its peers are up, or were up at its end.
    pub peers: u64,

    /// What it counted.
    pub counts: Counts,

    /// The router's name: the last sysName of an Initiation (RFC 7854, section 4.4).
    pub name: &'a [u8],

    /// The router's description: the last sysDescr of an Initiation.
    pub descr: &'a [u8],

    /// The parts of its messages that were passed over.
    pub passed: &'a Passed,
}

impl<'a> Model for Connection<'a> {
    ghost use Rattle.ask_specs.specs.FullRouters.{ConnectionValue};

    ghost Value = { ConnectionValue };

    ghost view = { λ c. record { came = c.came; until = c.until; up = c.peers; counts = c.counts; name = c.name.now; descr = c.descr.now; passed = c.passed.now } };
}
