//! Where the records of a text begin, and what stands between two fields of them.

use lrs_sheet_records::cut_at;

/// Where the records of a text begin, and what stands between two fields of them.
#[derive(Clone, Copy)]
pub(crate) struct Lead<'a> {
    pub records: &'a [u8],
    pub separator: u8,
    /// Whether a line that names the separator stands before them.
    pub is_named: bool,
}

/// A line without a carriage return at its end, and without quotation marks around it.
fn bare_line(line: &[u8]) -> &[u8] {
    let line = line.strip_suffix(b"\r").unwrap_or(line);
    match line.strip_prefix(b"\"") {
        Some(behind) => behind.strip_suffix(b"\"").unwrap_or(b""),
        None => line,
    }
}

fn is_separator(byte: u8) -> bool {
    byte == b',' || byte == b';' || byte == b'\t' || byte == b'|'
}

/// What a line `sep=;` names, as spreadsheets write it before the header.
fn separator_named(line: &[u8]) -> Option<u8> {
    let line = bare_line(line);
    if line.len() != 5 || !line[..4].eq_ignore_ascii_case(b"sep=") {
        return None;
    }
    if is_separator(line[4]) {
        Some(line[4])
    } else {
        None
    }
}

fn is_empty_line(line: &[u8]) -> bool {
    line.iter().all(|byte| *byte == b'\r' || *byte == b' ')
}

/// The first line of a text that has something in it.
fn header_line(text: &[u8]) -> &[u8] {
    let mut rest = text;
    for _turn in 0..u64::MAX {
        let (line, behind) = cut_at(rest, b'\n');
        if !is_empty_line(line) {
            return line;
        }
        match behind {
            Some(text) => rest = text,
            None => return line,
        }
    }
    rest
}

fn count(line: &[u8], byte: u8) -> usize {
    line.iter().filter(|other| **other == byte).count()
}

/// What stands between two fields of a header: the comma, unless there are more semicolons or tabs.
fn separator_in(line: &[u8]) -> u8 {
    let commas = count(line, b',');
    let semicolons = count(line, b';');
    let tabs = count(line, b'\t');
    if tabs > commas && tabs > semicolons {
        b'\t'
    } else if semicolons > commas {
        b';'
    } else {
        b','
    }
}

/// Where the records of a text begin.
pub(crate) fn lead_of(text: &[u8]) -> Lead<'_> {
    let (line, behind) = cut_at(text, b'\n');
    match (separator_named(line), behind) {
        (Some(separator), Some(records)) => Lead {
            records,
            separator,
            is_named: true,
        },
        _ => Lead {
            records: text,
            separator: separator_in(header_line(text)),
            is_named: false,
        },
    }
}
