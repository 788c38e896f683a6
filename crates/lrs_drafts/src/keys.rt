//! The sheet that is drafted: a header, and records under keys that count up.

use crate::fault::DraftFault;
use lrs_machine::{Command, Key, Line};
use std::alloc::{AllocError, Global};
use std::io::Write;

/// What stands before the number of the edit in each key, where nothing else is wanted.
const USUAL_FRONT: &str = "DRAFT-";

const BAD_KEYS: DraftFault = DraftFault::Unreadable(
    "a key has at most 40 characters of A-Z, a-z, 0-9 and . : _ -, with the numbers behind what --key gives",
);

/// A sheet to which records are added. Each gets its key at the end: what stands before all keys, the number of the next
/// edit, a dash, and a count from 1.
#[derive(Drop)]
pub(crate) struct SheetWriter<'a> {
    lines: Vec<Line>,
    front: &'a str,
    edit: u64,
}

/// The commas before the empty fields of a record: one for each field that a line has fewer than nine behind its verb.
fn empty_fields(line: &[u8]) -> &'static [u8] {
    let commas: &[u8] = b",,,,,,,,,";
    let filled = line.iter().filter(|byte| **byte == b',').count().min(9);
    &commas[filled..]
}

/// Writes a record under a key.
fn write_record(text: &mut Vec<u8>, key: &Key, line: &Line) -> Result<(), DraftFault> {
    let fields = line.as_str();
    write!(text, "{key},{fields}")?;
    text.write_all(empty_fields(fields.as_bytes()))?;
    text.write_all(b"\n")?;
    Ok(())
}

impl<'a> SheetWriter<'a> {
    /// A sheet without records, for an inventory of so many edits.
    pub(crate) fn new(alloc: Global, front: Option<&'a str>, edits: usize) -> SheetWriter<'a> {
        let front = match front {
            Some(front) => front,
            None => USUAL_FRONT,
        };
        SheetWriter {
            lines: Vec::new(alloc),
            front,
            edit: (edits as u64).saturating_add(1),
        }
    }

    /// A sheet without records, for the same inventory.
    pub(crate) fn blank(&self, alloc: Global) -> SheetWriter<'a> {
        SheetWriter {
            lines: Vec::new(alloc),
            front: self.front,
            edit: self.edit,
        }
    }

    /// Adds the record of a command.
    ///
    /// # Errors
    /// When memory runs out.
    pub(crate) fn add(&mut self, alloc: Global, command: &Command) -> Result<(), DraftFault> {
        let line = command.line(alloc)?;
        self.lines.push(line)?;
        Ok(())
    }

    /// Adds the records of another sheet.
    ///
    /// # Errors
    /// When memory runs out.
    pub(crate) fn append(
        &mut self,
        alloc: Global,
        other: &SheetWriter<'_>,
    ) -> Result<(), DraftFault> {
        for line in other.lines.as_slice() {
            self.lines.push(line.copy(alloc)?)?;
        }
        Ok(())
    }

    /// The key of the record behind so many others, if it is one.
    fn key(&self, alloc: Global, behind: usize) -> Result<Option<Key>, AllocError> {
        let SheetWriter { front, edit, .. } = self;
        let count = (behind as u64).saturating_add(1);
        let text = format!(in alloc; "{front}{edit}-{count}")?;
        Ok(Key::new(text.as_str().as_bytes()))
    }

    /// The sheet: a header, and the records.
    ///
    /// # Errors
    /// `Unreadable` where what stands before the keys makes no keys, and `Memory`.
    pub(crate) fn text(&self, alloc: Global) -> Result<Vec<u8>, DraftFault> {
        let mut text = Vec::new(alloc);
        text.extend_from_slice(b"key,verb,a,b,c,d,e,f,g,h,i\n")?;
        for (behind, line) in self.lines.iter().enumerate() {
            let Some(key) = self.key(alloc, behind)? else {
                return Err(BAD_KEYS);
            };
            write_record(&mut text, &key, line)?;
        }
        Ok(text)
    }
}
