//! Requests that a reader gives, as standard input does.

ghost use Rattle.std.specs.Prelude.{None};

use crate::source::{RequestSource, SourceFault};
use line_requests::LINE_LIMIT;
use std::alloc::Global;
use std::io::{BufRead, Read, Take};

/// The lines of a reader. Which lines it gives is not told: that they are what came in is trusted. It keeps none.
#[derive(Drop)]
pub struct RequestLines<F> {
    from: Take<F>,
}

impl<F: BufRead + Drop> RequestLines<F> {
    /// The lines that this reader will give.
    pub fn new(from: F) -> RequestLines<F> {
        RequestLines { from: from.take(0) }
    }

    // The first bytes of a line, with its end where that comes among them: none where there will be no more.
    fn read_front(&mut self, line: &mut Vec<u8>) -> Result<usize, SourceFault> {
        self.from.set_limit(LINE_LIMIT as u64 + 1);
        match self.from.read_until(b'\n', line) {
            Ok(count) => Ok(count),
            Err(_) => Err(SourceFault::Failed),
        }
    }

    // Passes over the rest of a line.
    fn pass_over(&mut self) -> Result<(), SourceFault> {
        self.from.set_limit(u64::MAX);
        match self.from.skip_until(b'\n') {
            Ok(_) => Ok(()),
            Err(_) => Err(SourceFault::Failed),
        }
    }

    // Takes the end off a line, or passes over the rest of one that is too long.
    fn end_line(&mut self, line: &mut Vec<u8>) -> Result<(), SourceFault> {
        if line.last() == Some(&b'\n') {
            line.pop();
            return Ok(());
        }
        if line.len() > LINE_LIMIT {
            return self.pass_over();
        }
        Ok(())
    }
}

impl<F: BufRead + Drop> RequestSource for RequestLines<F> {
    ghost given = { λ lines. None };

    fn next_line(&mut self, alloc: Global) -> Result<Option<Vec<u8>>, SourceFault> {
        let mut line = Vec::new(alloc);
        if self.read_front(&mut line)? == 0 {
            return Ok(None);
        }
        self.end_line(&mut line)?;
        Ok(Some(line))
    }
}
