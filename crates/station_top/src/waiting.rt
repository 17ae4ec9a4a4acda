use station_words::{DrillWords, ServeWords};

/// A command that waits for others, and so wants threads.
#[derive(Clone, Copy)]
pub enum Waiting {
    /// `serve`: routers and clients side by side. Bodies are read leniently, as routers send them, or by the RFCs alone.
    Serve { words: ServeWords, lenient: bool },

    /// `drill`: lanes over streams that follow from a few numbers.
    Drill(DrillWords),
}
