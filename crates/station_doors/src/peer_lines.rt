use crate::PeerChange;
use crate::log::PlaceLog;
use crate::share::Share;
use std::net::SocketAddr;
use std::sync::Wait;
use std::time::{Clock, Duration, Instant};

// What one place says of the peers of its router: at most 64 lines a second. How many weren't said has a line as soon as there is
// room again.
#[derive(Drop)]
pub(crate) struct PeerLines {
    share: Share,
    // When the present second began. None before the first line, and where the clock failed then.
    since: Option<Instant>,
}

impl PeerLines {
    // Nothing was to be said.
    pub(crate) fn new() -> PeerLines {
        PeerLines {
            share: Share::new(),
            since: None,
        }
    }

    // Says that a peer went up or down, or counts it.
    pub(crate) fn say<C: Clock + Wait>(
        &mut self,
        clock: &C,
        log: &PlaceLog<'_>,
        from: Option<SocketAddr>,
        change: &PeerChange<'_>,
    ) {
        if !log.says_all {
            return;
        }
        self.go_on(clock, log, from);
        if self.share.takes() {
            log.peer(clock, from, change);
        }
    }

    // Says how many lines weren't said, where there are such and there is room again.
    pub(crate) fn catch_up<C: Clock + Wait>(
        &mut self,
        clock: &C,
        log: &PlaceLog<'_>,
        from: Option<SocketAddr>,
    ) {
        if self.share.unsaid > 0 {
            self.go_on(clock, log, from);
        }
    }

    // Says how many lines weren't said. No further one comes from there.
    pub(crate) fn end<C: Wait>(&mut self, clock: &C, log: &PlaceLog<'_>, from: Option<SocketAddr>) {
        let count = self.share.take_unsaid();
        if count > 0 {
            log.unsaid(clock, from, count);
        }
    }

    // Begins the next second where the present one is over, and says what wasn't said in it. A clock that fails leaves it as it
    // is.
    fn go_on<C: Clock + Wait>(&mut self, clock: &C, log: &PlaceLog<'_>, from: Option<SocketAddr>) {
        let Ok(now) = Instant::now(clock) else {
            return;
        };
        let is_over = match self.since {
            Some(since) => now.duration_since(since) >= Duration::from_secs(1),
            None => true,
        };
        if is_over {
            self.since = Some(now);
            self.share.begin();
            self.end(clock, log, from);
        }
    }
}
