use stats_book::Counts;
use std::marker::Model;
use std::sync::Arc;
use wire_io::ByteList;

// What a session leaves.
#[derive(Drop)]
pub(crate) struct Left {
    // how many peers were up
    pub(crate) peers: u64,
    pub(crate) counts: Counts,
    pub(crate) name: Arc<ByteList>,
    pub(crate) description: Arc<ByteList>,
}

impl Model for Left {
    ghost use Rattle.std.specs.Arc.{arc_value};
    ghost use Rattle.router_tables.specs.Last.{LeftValue};

    ghost Value = { LeftValue };

    ghost view = { λ l. record { peers = l.peers; counts = l.counts; name = arc_value l.name; description = arc_value l.description } };
}
