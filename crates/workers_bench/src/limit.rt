//! How long a thread calls, and what it made then.
use std::rt::Clock;
use std::time::Instant;

// How many calls a thread makes between two looks at the clock, if its waits aren't watched.
const BATCH: u64 = 64;

/// When a thread stops: after this many calls, or when its time is over. It looks at the clock at each call if its waits are
/// watched.
#[derive(Clone, Copy)]
pub struct Limit {
    pub calls: u32,
    pub end: Option<Instant>,
    pub is_watched: bool,
}

/// What one thread made.
#[derive(Clone, Copy)]
pub struct Made {
    /// Its own calls.
    pub calls: u64,
    /// All threads' calls up to its last one.
    pub seen: u64,
    /// The longest time from one of its calls to the next, in microseconds; 0 where its waits weren't watched.
    pub wait: u64,
}

/// A thread on its way to its limit.
#[derive(Clone, Copy)]
pub struct Pace {
    limit: Limit,
    last: Option<Instant>,
    made: Made,
}

impl Pace {
    /// Before the first call.
    pub fn new(limit: Limit) -> Pace {
        let made = Made {
            calls: 0,
            seen: 0,
            wait: 0,
        };
        Pace {
            limit,
            last: None,
            made,
        }
    }

    /// Whether the thread's time is over, as far as it looks.
    pub fn is_over<R: Clock>(&mut self, rt: &R) -> bool {
        if !self.limit.is_watched && self.made.calls % BATCH != 0 {
            return false;
        }
        let Some(end) = self.limit.end else {
            return false;
        };
        let Ok(now) = Instant::now(rt) else {
            return true;
        };
        if self.limit.is_watched {
            self.watch(now);
        }
        end <= now
    }

    // Measures the time since the last look.
    fn watch(&mut self, now: Instant) {
        if let Some(last) = self.last {
            let micros = now.saturating_duration_since(last).as_micros();
            self.made.wait = self
                .made
                .wait
                .max(u64::try_from(micros).unwrap_or(u64::MAX));
        }
        self.last = Some(now);
    }

    /// Counts a call, up to which all threads have made this many.
    pub fn count(&mut self, seen: u64) {
        self.made.calls = self.made.calls.saturating_add(1);
        self.made.seen = seen;
    }

    /// What the thread has made.
    pub fn made(self) -> Made {
        self.made
    }
}

/// What the threads of a run made.
#[derive(Clone, Copy)]
pub struct Run {
    /// All their calls.
    pub calls: u64,
    /// The calls of the one that made the fewest.
    pub least: u64,
    /// The calls of the one that made the most.
    pub most: u64,
    /// The longest wait of one of them.
    pub wait: u64,
}

impl Run {
    /// The run in which the threads made this.
    pub fn of(threads: &[Made]) -> Run {
        let mut run = Run {
            calls: 0,
            least: u64::MAX,
            most: 0,
            wait: 0,
        };
        for made in threads {
            run.calls = run.calls.max(made.seen);
            run.least = run.least.min(made.calls);
            run.most = run.most.max(made.calls);
            run.wait = run.wait.max(made.wait);
        }
        run
    }
}
