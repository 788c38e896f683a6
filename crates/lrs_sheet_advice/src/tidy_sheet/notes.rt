//! What is said about a sheet that is tidied, in lines.

use crate::line::AdviceLine;
use std::alloc::{AllocError, Global};

/// What was changed, and what could be read in two ways: lines, each with its end.
#[derive(Drop)]
pub(crate) struct Notes {
    changes: Vec<u8>,
    doubts: Vec<u8>,
}

fn push_line(lines: &mut Vec<u8>, line: &AdviceLine) -> Result<(), AllocError> {
    lines.extend_from_slice(line.bytes())?;
    lines.push(b'\n')?;
    Ok(())
}

impl Notes {
    pub(crate) fn new(alloc: Global) -> Notes {
        Notes {
            changes: Vec::new(alloc),
            doubts: Vec::new(alloc),
        }
    }

    pub(crate) fn add_change(&mut self, line: &AdviceLine) -> Result<(), AllocError> {
        push_line(&mut self.changes, line)
    }

    pub(crate) fn add_doubt(&mut self, line: &AdviceLine) -> Result<(), AllocError> {
        push_line(&mut self.doubts, line)
    }

    pub(crate) fn has_doubts(&self) -> bool {
        !self.doubts.is_empty()
    }

    /// The doubts, where there are any, and else the changes.
    pub(crate) fn lines(&self) -> &[u8] {
        if self.has_doubts() {
            self.doubts.as_slice()
        } else {
            self.changes.as_slice()
        }
    }
}
