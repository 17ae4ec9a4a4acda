/// Whether tables in the making get an index by origin AS, by which `RouteTable::origin` jumps over rows of other origins.
/// To make it takes time and memory.
#[derive(Clone, Copy, Debug, PartialEq, Eq)]
pub enum Indexing {
    /// They get one.
    ByOrigin,

    /// They get none, and `origin` reads every row.
    Unindexed,
}
