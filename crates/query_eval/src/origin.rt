ghost use Rattle.bmp_specs.specs.Query.{origin as origin_query};
ghost use Rattle.bmp_specs.specs.QueryReply.{AreLaneLines};
ghost use Rattle.query_lang.specs.TraitValues.{traits_value};
ghost use Rattle.router_tables.specs.Tables.{StandsFor};
ghost use Rattle.query_eval.specs.Puts.{AreKeptLines, PutsLines};
ghost use Rattle.query_eval.specs.Rows.{asks_origin, kept};

use crate::asks::{Asks, put_rows};
use crate::kept::put_kept;
use crate::run::{Part, Run};
use crate::tables::PeerTable;
use crate::tells::{AsRoutes, TellsRow};
use bmp_specs::Family;
use query_lang::{Select, Traits};
use router_tables::RouterTables;
use wire_io::{Failed, Sink};

/// The routes of a family, where one is named, whose path has an origin AS (RFC 6811, section 2), of which those that have
/// what is asked, each told in this way.
#[derive(Drop)]
pub(crate) struct OriginRows<'a, T> {
    asn: u32,
    family: Option<Family>,
    traits: &'a Traits,
    tells: &'a T,
}

impl<'a, T: TellsRow> Asks for OriginRows<'a, T> {
    ghost asking = { λ asks. kept (traits_value asks.traits.now) (asks_origin asks.asn asks.family) };

    ghost line = { λ asks. T.line asks.tells.now };

    fn put_asked<O: Sink>(
        &self,
        out: &mut O,
        lane: u32,
        table: &PeerTable<'_>,
    ) -> Result<u64, Failed> {
        let run = Run {
            family: self.family,
            part: Part::Whole,
        };
        let routes = table.table;
        // for the proof: the pairs stand in the order of NLRI
        routes.see_order();
        put_kept(
            out,
            lane,
            table,
            routes.origin(self.asn, run.begin()),
            &run,
            self.traits,
            self.tells,
        )
    }
}

/// Writes the lines of `origin N` of one lane, of which those whose routes have what is asked, each told in this way, and
/// answers how many. Each table is read by its index of origins.
pub(crate) fn put_kept_origin<O: Sink, T: TellsRow>(
    out: &mut O,
    lane: u32,
    tables: &RouterTables,
    asn: u32,
    select: &Select,
    traits: &Traits,
    tells: &T,
) -> Result<u64, Failed>
    ensures { PutsLines O.faults O.told O.aside (StandsFor tables.now) (AreKeptLines (T.line tells.now) (origin_query asn select.now) (traits_value traits.now) lane) out.old result out.new }
{
    let rows = OriginRows {
        asn,
        family: select.family,
        traits,
        tells,
    };
    put_rows(out, lane, tables, select, &rows)
}

/// Writes the lines of `origin N` of one lane, and answers how many.
pub(crate) fn put_origin<O: Sink>(
    out: &mut O,
    lane: u32,
    tables: &RouterTables,
    asn: u32,
    select: &Select,
) -> Result<u64, Failed>
    ensures { PutsLines O.faults O.told O.aside (StandsFor tables.now) (AreLaneLines (origin_query asn select.now) lane) out.old result out.new }
{
    let traits = Traits::none();
    put_kept_origin(out, lane, tables, asn, select, &traits, &AsRoutes)
}
