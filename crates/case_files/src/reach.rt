ghost use Rattle.std.specs.Prelude.{◌↔◌, ◌<◌, IsTrue};
ghost use Rattle.std.specs.List.{All};

use crate::{KINDS, counted_kind};
use message_net::EventKind;
use std::alloc::{AllocError, Global};
use std::str;

/// In how many cases events of each kind came, at its index.
#[derive(Clone, Copy)]
pub struct Reach {
    cases: [u64; 17],
}

impl Reach {
    /// The reach of no case.
    pub fn new() -> Reach {
        Reach { cases: [0; 17] }
    }

    /// Adds a case that wrote this: events of a kind came in it where a line counts them.
    pub fn add(&mut self, output: &[u8]) {
        for line in output.split(|byte| *byte == b'\n') {
            if let Ok(line) = str::from_utf8(line) {
                self.add_line(line);
            }
        }
    }

    /// Adds a line of what a case wrote.
    fn add_line(&mut self, line: &str) {
        if let Some(kind) = counted_kind(line) {
            let cases = &mut self.cases[kind.index()];
            *cases = cases.saturating_add(1);
        }
    }

    /// Whether events of each kind came in some case.
    pub fn is_whole(&self) -> bool
        ensures { IsTrue result ↔ All (λ number. 0 < number) self.now.cases }
    {
        self.cases.iter().all(|number| 0 < *number)
    }

    /// Adds the line of a kind, which has this name.
    fn push_line(
        &self,
        alloc: Global,
        out: &mut String,
        kind: EventKind,
        name: &str,
    ) -> Result<(), AllocError> {
        let number = self.cases[kind.index()];
        let line = format!(in alloc; "{name} came in {number} cases\n")?;
        out.push_str(line.as_str())
    }

    /// A line for each kind.
    pub fn lines(&self, alloc: Global) -> Result<String, AllocError> {
        let mut out = String::new(alloc);
        for named in KINDS.iter() {
            self.push_line(alloc, &mut out, named.0, named.1)?;
        }
        Ok(out)
    }
}
