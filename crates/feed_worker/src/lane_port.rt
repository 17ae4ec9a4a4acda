//! A port that is handed to a lane.
ghost use Rattle.std.specs.Prelude.{◌≡◌, None};

use crate::feed_port::FeedPort;
use crate::peers::tell_entries;
use bmp_message::BodyReading;
use bmp_specs::Cause;
use cut_publisher::{FeedPass, Naming};
use rib_model::Entry;
use router_tables::RouterTables;
use station_doors::{Ended, Port, Told};
use std::marker::Model;
use wire_io::Failed;

/// Any port as that of a lane, for whichever reading and station. Contracts see it as its port.
#[derive(Drop)]
pub struct LanePort<P> {
    port: P,
}

impl<P> Model for LanePort<P> {
    ghost Value = { P };

    ghost view = { λ l. l.port };
}

impl<P: Port + Drop> LanePort<P> {
    /// Holds the port.
    pub fn new(port: P) -> LanePort<P>
        ensures { result ≡ port }
    {
        LanePort { port }
    }

    /// The port, as it is seen from outside.
    pub fn as_port(&self) -> &P
        ensures { result.now ≡ self.now }
    {
        &self.port
    }

    // Hands the port back as it is.
    pub(crate) fn into_port(self) -> P
        ensures { result ≡ self }
    {
        let LanePort { port } = self;
        port
    }
}

// How a connection ended that had left these tables. Without tables nothing is counted.
fn ended_with(tables: Option<&RouterTables>, cause: Option<Cause>) -> Ended<'_>
    ensures { result.cause ≡ cause }
{
    match tables {
        Some(tables) => {
            let counts = tables.counts();
            Ended {
                cause,
                messages: counts.messages,
                bytes: counts.bytes,
                name: tables.name(),
            }
        }
        None => Ended {
            cause,
            messages: 0,
            bytes: 0,
            name: &[],
        },
    }
}

impl<P: Port, B: BodyReading, J: Naming> FeedPort<B, J> for LanePort<P> {
    ghost aside = { P.aside };

    ghost calls = { P.calls };

    ghost last_began = { λ _. None };

    ghost causes = { P.causes };

    ghost tells = { P.tells };

    fn next_connection(&mut self, _pass: &FeedPass<RouterTables>) -> Result<bool, Failed> {
        self.port.next_connection()
    }

    fn read(&mut self, _pass: &FeedPass<RouterTables>, buf: &mut [u8]) -> Result<usize, Failed> {
        self.port.read(buf)
    }

    fn published(&mut self, _pass: &FeedPass<RouterTables>, entries: &[Entry]) {
        tell_entries(&mut self.port, entries);
    }

    fn broke(&mut self, _offset: u64, octets: &[u8]) {
        self.port.broke(octets);
    }

    fn close(&mut self) {
        self.port.close();
    }

    fn told(&self) -> Told {
        self.port.told()
    }

    fn ended(&mut self, tables: Option<&RouterTables>, cause: Option<Cause>) {
        self.port.ended(&ended_with(tables, cause));
    }
}
