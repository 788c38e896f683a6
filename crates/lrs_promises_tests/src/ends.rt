//! How sheets and requests end whose reader or writer fails, by the calls that say what each leaves.

use crate::words::{open, print};
use lrs_desk::{Desk, Keeper, Plain};
use lrs_machine::Limits;
use lrs_promises::{SheetFault, WebFault, safe};
use lrs_sheet_records::Sheet;
use std::io::{ErrorKind, Read, Write};
use std::{fs, io};

/// Gives these bytes; then it fails, or they end.
#[derive(Drop)]
struct ShortReader<'a> {
    bytes: &'a [u8],
    fails: bool,
}

impl<'a> Read for ShortReader<'a> {
    fn read(&mut self, buf: &mut [u8]) -> io::Result<usize> {
        if self.fails && self.bytes.is_empty() {
            return Err(io::Error::from(ErrorKind::ConnectionReset));
        }
        self.bytes.read(buf)
    }
}

/// Takes so many bytes, and then fails.
#[derive(Drop)]
struct ShortWriter {
    text: Vec<u8>,
    room: usize,
}

impl Write for ShortWriter {
    fn write(&mut self, buf: &[u8]) -> io::Result<usize> {
        let count = buf.len().min(self.room);
        if count < buf.len() && count == 0 {
            return Err(io::Error::from(ErrorKind::ConnectionReset));
        }
        self.text.extend_from_slice(&buf[..count])?;
        self.room -= count;
        Ok(count)
    }

    fn flush(&mut self) -> io::Result<()> {
        Ok(())
    }
}

/// How a call ended: well, with how many records were done or with the status of its reply; or in a fault.
#[derive(Clone, Copy)]
enum End {
    Well(u64),
    Read,
    Write,
    Other,
}

/// Runs a sheet, one record after the other.
fn end_of_sheet<R: Read + Drop, W: Write, K: Keeper>(
    rt: &HostRuntime,
    sheet: Sheet,
    reader: R,
    writer: &mut W,
    desk: &mut Desk<K>,
) -> End {
    match safe::sheet(rt.alloc(), sheet, 1, reader, writer, desk) {
        Ok(tally) => End::Well(tally.done),
        Err(SheetFault::Read) => End::Read,
        Err(SheetFault::Write) => End::Write,
        Err(_) => End::Other,
    }
}

/// Serves a request.
fn end_of_request<R: Read, W: Write, K: Keeper>(
    rt: &HostRuntime,
    reader: &mut R,
    writer: &mut W,
    desk: &mut Desk<K>,
) -> End {
    match safe::request(rt.alloc(), reader, writer, desk) {
        Ok(status) => End::Well(u64::from(status)),
        Err(WebFault::Read) => End::Read,
        Err(WebFault::Write) => End::Write,
    }
}

/// Does what the bytes of a reader ask for, of this kind.
fn end_of<K: Keeper>(
    rt: &HostRuntime,
    kind: &str,
    mut reader: ShortReader<'_>,
    writer: &mut ShortWriter,
    desk: &mut Desk<K>,
) -> End {
    match kind {
        "edits" => end_of_sheet(rt, Sheet::Edits, reader, writer, desk),
        "survey" => end_of_sheet(rt, Sheet::Survey, reader, writer, desk),
        _ => end_of_request(rt, &mut reader, writer, desk),
    }
}

/// A reader whose bytes end.
fn whole(bytes: &[u8]) -> ShortReader<'_> {
    ShortReader {
        bytes,
        fails: false,
    }
}

/// A reader that fails behind its bytes.
fn broken(bytes: &[u8]) -> ShortReader<'_> {
    ShortReader { bytes, fails: true }
}

/// A writer with room for so many bytes.
fn writer_of(rt: &HostRuntime, room: usize) -> ShortWriter {
    ShortWriter {
        text: Vec::new(rt.alloc()),
        room,
    }
}

/// Prints how a call ended, and how many edits there are.
fn show_end<K: Keeper>(rt: &HostRuntime, end: End, desk: &Desk<K>) -> Option<()> {
    let edits = desk.inventory().edits();
    match end {
        End::Well(count) => println!(rt; "{count}, {edits} edits").ok(),
        End::Read => println!(rt; "Read, {edits} edits").ok(),
        End::Write => println!(rt; "Write, {edits} edits").ok(),
        End::Other => println!(rt; "another fault").ok(),
    }
}

/// Does a call with so much room for its reply, and prints what was written and how it ended.
fn take<K: Keeper>(
    rt: &HostRuntime,
    kind: &str,
    bytes: &[u8],
    room: usize,
    desk: &mut Desk<K>,
) -> Option<()> {
    let mut writer = writer_of(rt, room);
    let end = end_of(rt, kind, whole(bytes), &mut writer, desk);
    print(rt, writer.text.as_slice())?;
    show_end(rt, end, desk)
}

/// How often a call ends in this fault, where its writer takes one byte more each time, and how it ends then.
fn count_taken<K: Keeper>(
    rt: &HostRuntime,
    kind: &str,
    bytes: &[u8],
    desk: &mut Desk<K>,
) -> (usize, End) {
    for room in 0..10_000usize {
        let mut writer = writer_of(rt, room);
        let end = end_of(rt, kind, whole(bytes), &mut writer, desk);
        if !matches!(end, End::Write) {
            return (room, end);
        }
    }
    (10_000, End::Write)
}

/// The same where its reader gives one byte more each time.
fn count_given<K: Keeper>(
    rt: &HostRuntime,
    kind: &str,
    bytes: &[u8],
    desk: &mut Desk<K>,
) -> (usize, End) {
    for count in 0..bytes.len() {
        let mut writer = writer_of(rt, 10_000);
        let end = end_of(rt, kind, broken(&bytes[..count]), &mut writer, desk);
        if !matches!(end, End::Read) {
            return (count, end);
        }
    }
    let mut writer = writer_of(rt, 10_000);
    let end = end_of(rt, kind, whole(bytes), &mut writer, desk);
    (bytes.len(), end)
}

/// Prints how often a call failed, and how it ended then.
fn show_count<K: Keeper>(rt: &HostRuntime, counted: (usize, End), desk: &Desk<K>) -> Option<()> {
    println!(rt; "failed {} times", counted.0).ok()?;
    show_end(rt, counted.1, desk)
}

/// Does what a word says of a kind of call, and a file; any other word says nothing here.
fn step<K: Keeper>(
    rt: &HostRuntime,
    word: &str,
    kind: &str,
    bytes: &[u8],
    desk: &mut Desk<K>,
) -> Option<()> {
    match word {
        "taken" => {
            let counted = count_taken(rt, kind, bytes, desk);
            show_count(rt, counted, desk)
        }
        "given" => {
            let counted = count_given(rt, kind, bytes, desk);
            show_count(rt, counted, desk)
        }
        room => take(rt, kind, bytes, room.parse::<usize>().ok()?, desk),
    }
}

/// Does what the words say, one after another: `ends:10:edits:first.csv`, `ends:taken:..`, `ends:given:..`.
fn do_words<K: Keeper>(rt: &HostRuntime, words: &[String], desk: &mut Desk<K>) -> Option<()> {
    for word in words {
        if let Some(rest) = word.as_str().strip_prefix("ends:") {
            let (how, call) = rest.split_once(':')?;
            let (kind, path) = call.split_once(':')?;
            let bytes = fs::read(rt, path).ok()?;
            step(rt, how, kind, bytes.as_slice(), desk)?;
        }
    }
    Some(())
}

/// The same at a desk of its own over an inventory in memory.
pub fn run_ends(rt: &HostRuntime, words: &[String]) -> Option<()> {
    match open(rt, Limits::full(), Plain::empty(rt.alloc())) {
        Ok(mut desk) => {
            let done = do_words(rt, words, &mut desk);
            desk.into_keeper().discard();
            done
        }
        Err(plain) => {
            plain.discard();
            None
        }
    }
}
