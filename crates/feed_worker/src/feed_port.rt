//! What a lane may do with its port.
ghost use Rattle.std.specs.Prelude.{◌≡◌, ◌<◌, ℕ, List, [], length, Option, IfSome, OnErr, IsTrue};
ghost use Rattle.std.specs.Io.{ReadsAtMost};
ghost use Rattle.rib_model.specs.Entries.{entry_values};
ghost use Rattle.wire_io.specs.Aside.{Aside};
ghost use Rattle.bmp_specs.specs.declared.causes.Cause.{Cause};
ghost use Rattle.station_doors.specs.Doors.{Opens, Reads, Closes, AsPlanned, read_size, told_after};
ghost use Rattle.station_doors.specs.Told.{KeepsOpening, ToldValue};
ghost use Rattle.feed_worker.specs.FeedPort.{BeginsAfter, IsAtRest, IsPublishedWhereTold};
ghost use Rattle.feed_worker.specs.Front.{BreaksWhereTold};
ghost use Rattle.feed_worker.specs.Publishing.{EndsWith};

use bmp_message::BodyReading;
use bmp_specs::Cause;
use cut_publisher::{FeedPass, Naming};
use rib_model::Entry;
use router_tables::RouterTables;
use station_doors::Told;
use wire_io::Failed;

/// The port of a lane of the station that `J` names. It gives bytes only to a lane that has published, on that station,
/// all messages of the earlier ones as `B` reads them: nothing whole is unpublished when more is asked for. It opens
/// the next connection only for a lane that has published the closing of the last one: nothing of the earlier
/// connections is unpublished while a lane waits for the next. A lane that is written over any such port has no other
/// way to the bytes of its connections.
pub trait FeedPort<B: BodyReading, J: Naming> {
    /// What it tells: its plan, the connections that it gave, and its counts.
    ghost aside: { Self → Aside };

    /// How many of its calls were made that its plan numbers.
    ghost calls: { Self → ℕ };

    /// After how many bytes of its connection the last read began, where that is kept. By this a lane's contract says
    /// what stays published where memory runs out.
    ghost last_began: { Self → Option ℕ };

    /// Why its connections ended, in the order in which it was told, where it keeps that.
    ghost causes: { Self → Option (List Cause) };

    /// From where its present connection came and when, or its last one, and when that was closed.
    ghost tells: { Self → ToldValue };

    /// Opens the next connection, as a `Port` does, for the pass of a lane of this station. A lane may wait here for
    /// days. Nothing of the earlier connections is unpublished then: the pass has no entry, or the last one is a
    /// closing. Where one of them was read, its opening is among the entries, so the last one is its closing.
    fn next_connection(&mut self, pass: &FeedPass<RouterTables>) -> Result<bool, Failed>
        requires station { pass.now.station ≡ J.site }
        requires at_rest { IsAtRest (entry_values pass.now.entries) }
        ensures opens { Opens (aside self.old) (aside self.new) result }
        ensures planned { IfSome (aside self.old).plan (λ plan. OnErr result (plan.fails ≡ [] → ⊥)) }
        ensures calls { calls self.new ≡ calls self.old }
        ensures began { last_began self.new ≡ last_began self.old }
        ensures causes { causes self.new ≡ causes self.old };

    /// Gives the next bytes of the present connection, as a `Port` does, to the pass of a lane of this station. Where
    /// its bytes are told, the entries of the pass since its last opening are exactly the messages of the bytes given
    /// so far.
    fn read(&mut self, pass: &FeedPass<RouterTables>, buf: &mut [u8]) -> Result<usize, Failed>
        requires some { 0 < length buf.old }
        requires size { length buf.old ≡ read_size (aside self.old).taken }
        requires is_open { IsTrue (aside self.old).is_open }
        requires station { pass.now.station ≡ J.site }
        requires published { IsPublishedWhereTold B.meaning (entry_values pass.now.entries) (aside self.old).given }
        ensures bound { ReadsAtMost result buf.new }
        ensures reads { Reads (aside self.old) (aside self.new) result buf.new }
        ensures planned { AsPlanned (aside self.old).plan (calls self.old) (calls self.new) result }
        ensures began { BeginsAfter (last_began self.old) (last_began self.new) (aside self.old).taken }
        ensures causes { causes self.new ≡ causes self.old }
        ensures tells { tells self.new ≡ tells self.old };

    /// Is told the messages that the last read completed, once the pass has published them: they are its last entries.
    fn published(&mut self, pass: &FeedPass<RouterTables>, entries: &[Entry])
        requires { EndsWith (entry_values pass.now.entries) (entry_values entries.now) }
        ensures aside { aside self.new ≡ aside self.old }
        ensures calls { calls self.new ≡ calls self.old }
        ensures began { last_began self.new ≡ last_began self.old }
        ensures causes { causes self.new ≡ causes self.old }
        ensures tells { tells self.new ≡ tells self.old };

    /// Is told of the present connection that what stands at this offset is no message, and the first octets from there on,
    /// at most 64. Where its bytes are told, that is so of the bytes given so far.
    fn broke(&mut self, offset: u64, octets: &[u8])
        requires { BreaksWhereTold B.meaning (aside self.old).given offset octets.now }
        ensures aside { aside self.new ≡ aside self.old }
        ensures calls { calls self.new ≡ calls self.old }
        ensures began { last_began self.new ≡ last_began self.old }
        ensures causes { causes self.new ≡ causes self.old }
        ensures tells { tells self.new ≡ tells self.old };

    /// Closes the present connection, as a `Port` does.
    fn close(&mut self)
        requires { IsTrue (aside self.old).is_open }
        ensures closes { Closes (aside self.old) (aside self.new) }
        ensures calls { calls self.new ≡ calls self.old }
        ensures began { last_began self.new ≡ last_began self.old }
        ensures causes { causes self.new ≡ causes self.old }
        ensures tells { KeepsOpening (tells self.old) (tells self.new) };

    /// Tells from where the present connection came and when, or the last one, and when that was closed, as a `Port` does.
    fn told(&self) -> Told
        ensures { result ≡ tells self.now };

    /// Is told how the last connection ended, which was closed, as a `Port` is: for this cause, whose closing was
    /// published, or, without one, for want of memory. These are the lane's tables as they were before that closing.
    fn ended(&mut self, tables: Option<&RouterTables>, cause: Option<Cause>)
        ensures aside { aside self.new ≡ aside self.old }
        ensures calls { calls self.new ≡ calls self.old }
        ensures began { last_began self.new ≡ last_began self.old }
        ensures causes { causes self.new ≡ told_after (causes self.old) cause }
        ensures tells { tells self.new ≡ tells self.old };
}
