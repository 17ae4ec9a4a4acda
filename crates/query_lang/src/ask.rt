ghost use Rattle.std.specs.Prelude.{◌≡◌, IfSome, IfNone};
ghost use Rattle.ask_specs.specs.Asking.{TellsRows};
ghost use Rattle.query_lang.specs.Asks.{row_query_value};
ghost use Rattle.query_lang.specs.Queries.{query_value};

use crate::query::Query;
use crate::select::Select;
use crate::traits::Traits;
use ip_prefix::{Addr, Prefix};

/// A query that tells rows, each by a line of its own.
#[derive(Clone, Copy, Debug, PartialEq, Eq)]
pub enum RowQuery {
    /// `table`: the rows.
    Table(Select),

    /// `prefix P`: the rows of this prefix.
    Exact(Prefix, Select),

    /// `match A`: the rows of the longest prefixes that hold the address.
    Longest(Addr, Select),

    /// `within P`: the rows of the prefixes that lie within this one.
    Within(Prefix, Select),

    /// `origin N`: the rows whose path has this origin AS.
    Origin(u32, Select),
}

/// A query that tells rows, with further words.
#[derive(Clone, Copy, Debug, PartialEq, Eq)]
pub struct RowsAsk {
    /// `steps`: before the rows of each lane the number of its steps is told.
    pub steps: bool,
    /// `full`: each row is told with all its path attributes.
    pub full: bool,
    /// The query.
    pub query: RowQuery,
    /// The selectors of path attributes behind it.
    pub traits: Traits,
}

/// What a line asks for: a query, or one of the further forms.
#[derive(Clone, Copy, Debug, PartialEq, Eq)]
pub enum Ask {
    /// A query.
    Query(Query),

    /// A query that tells rows, with `steps` or `full` in front of it, selectors of path attributes behind it, or
    /// several of these.
    Rows(RowsAsk),

    /// `count`, and selectors of path attributes behind it.
    Count(Select, Traits),

    /// `changes N S`, or `full changes N S P`: the changes on a lane, from the step of number S on. With `full`,
    /// each announcement is told with all its path attributes. Where a prefix is named, the changes are its own,
    /// and else they are all; `changes N S P` without `full` is a query.
    Changes {
        full: bool,
        lane: u32,
        from: u64,
        prefix: Option<Prefix>,
    },

    /// `full marks`: the marks, each with the number of its rows.
    FullMarks(Select),

    /// `full routers`: the routers, each with from where and when its last connection came, and with the parts
    /// that were passed over.
    FullRouters,
}

// The query as one that tells rows. None exactly where it tells none.
pub(crate) fn rows_of(query: &Query) -> Option<RowQuery>
    ensures some { IfSome result (λ rows. row_query_value rows ≡ query_value query.now) }
    ensures none { IfNone result (TellsRows (query_value query.now) → ⊥) }
{
    match query {
        Query::Table(select) => Some(RowQuery::Table(*select)),
        Query::Exact(prefix, select) => Some(RowQuery::Exact(*prefix, *select)),
        Query::Longest(address, select) => Some(RowQuery::Longest(*address, *select)),
        Query::Within(prefix, select) => Some(RowQuery::Within(*prefix, *select)),
        Query::Origin(number, select) => Some(RowQuery::Origin(*number, *select)),
        _ => None,
    }
}
