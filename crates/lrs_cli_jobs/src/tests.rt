//! Jobs that are done in memory: their sheet is a text, their files are kept in memory, and so is what they write.

ghost use Rattle.std.specs.Prelude.{◌≡◌, IfErr};

use crate::do_job;
use lrs_cli_help::Options;
use lrs_cli_sheets::{Extent, Pace, ProgressDisplay, Sheets, World, do_records};
use lrs_cli_tasks::{Ending, open_in_memory, status};
use lrs_cli_words::{Job, job_of};
use lrs_desk::{Desk, Files, OpenFault, Plain};
use lrs_sheet_records::Sheet;
use std::io;
use std::io::{ErrorKind, Write};
use std::process::Abort;
use std::rt::HostRuntime;

/// What was done before each job, in its files.
const FIRST: &str = "key,verb,a,b,c,d,e,f,g,h,i\n\
    s1,link,1,5000,,,,,,,\n\
    s2,class,SPEED,exclusive,,,,,,,\n\
    s3,route,A1,1:0:5000:+,0:0 5000:5000,,,,,,\n\
    s4,enter,7,SPEED,A1,B,abs,1000,3000,80,0\n";

const EDITS: &str = "key,verb,a,b,c,d,e,f,g,h,i\n\
    s1,link,1,5000,,,,,,,\n\
    e2,link,2,3000,,,,,,,\n\
    e3,link,1,9,,,,,,,\n";

const REPLIES: &str = "s1,again,1\ne2,done,5\ne3,refused,LinkKnown\n";

const SURVEY: &str = "key,asset,class,route,side,method,from,to,value,offset\n\
    v1,8,SPEED,A1,B,abs,3000,4000,50,0\n";

const STRIP: &str = "STRIP A1 L 5.000
        FROM           TO        SPEED
       0.000        1.000            -
       1.000        3.000           80
       3.000        5.000            -
";

const ROWS: &str = "route,from,to,from_measure,to_measure,side,asset,class,value,offset,entry\n\
    A1,1000,3000,1000.000,3000.000,B,7,SPEED,80,0,4\n";

const HISTORY: &str = "edit,key,verb,event,link,from,to,side\n\
    4,s4,enter,entered,1,1000,3000,L\n\
    4,s4,enter,entered,1,1000,3000,R\n";

const QUESTIONS: &str = "key,question,a,b,c,d\nq1,at,A1,abs,1500,\nq2,find,8,,,\n";

/// The sheet `sheet`, and no other.
#[derive(Drop)]
struct OneSheet<'a> {
    text: &'a [u8],
}

impl<'a> Sheets for OneSheet<'a> {
    ghost use Rattle.std.specs.Prelude.{Some};

    type Reader = &'a [u8];

    ghost text_of = { λ sheets _. Some sheets.text.now };

    fn open(&self, name: &str) -> io::Result<&'a [u8]> {
        if name == "sheet" {
            Ok(self.text)
        } else {
            Err(io::Error::from(ErrorKind::NotFound))
        }
    }

    fn extent(&self, _name: &str) -> Extent {
        Extent::Bytes(self.text.len() as u64)
    }
}

/// Whether each record of `FIRST` is done at a desk.
fn does_first(rt: &HostRuntime, desk: &mut Desk<Plain>) -> bool {
    let sheets = OneSheet {
        text: FIRST.as_bytes(),
    };
    let world = World {
        rt,
        sheets: &sheets,
        shown: ProgressDisplay::Nowhere,
    };
    let to = Vec::new(rt.alloc());
    match do_records(
        &world,
        desk,
        Sheet::Edits,
        false,
        false,
        false,
        "sheet",
        Pace::InPieces,
        to,
    ) {
        Ok((_, ending)) => ending == Ending::Done,
        Err(_) => false,
    }
}

/// The keeper of what `FIRST` makes of nothing.
fn first_keeper(rt: &HostRuntime) -> Result<Plain, OpenFault>
    ensures { IfErr result (λ e. e ≡ OpenFault.Memory) }
{
    let Ok(mut desk) = open_in_memory(rt.alloc()) else {
        return Err(OpenFault::Memory);
    };
    let is_done = does_first(rt, &mut desk);
    let keeper = desk.into_keeper();
    if is_done {
        return Ok(keeper);
    }
    keeper.discard();
    Err(OpenFault::Memory)
}

/// Files in memory, which hold what `FIRST` makes of nothing, whatever they are named.
#[derive(Drop)]
struct FirstFiles;

impl Files for FirstFiles {
    ghost use Rattle.std.specs.Prelude.{⊤};

    type Kept = Plain;

    type Seen = Plain;

    // The tests compare what is written.
    ghost has_opened = { λ c. ⊤ };

    ghost has_read = { λ c. ⊤ };

    ghost may_find = { λ files c. ⊥ };

    fn open(&mut self, rt: &HostRuntime, _path: &str, _sums: bool) -> Result<Plain, OpenFault> {
        first_keeper(rt)
    }

    fn open_to_look(&mut self, rt: &HostRuntime, _path: &str) -> Result<Option<Plain>, OpenFault> {
        match first_keeper(rt) {
            Ok(keeper) => Ok(Some(keeper)),
            Err(fault) => Err(fault),
        }
    }

    fn close(&mut self, keeper: Plain) {
        keeper.discard();
    }

    fn discard(keeper: Plain) {
        keeper.discard();
    }

    fn discard_seen(keeper: Plain) {
        keeper.discard();
    }
}

/// What a job writes, with this text for its sheet, and how it ends.
fn done(rt: &HostRuntime, job: &Job<'_>, text: &str) -> Option<(Vec<u8>, Ending)> {
    let sheets = OneSheet {
        text: text.as_bytes(),
    };
    let world = World {
        rt,
        sheets: &sheets,
        shown: ProgressDisplay::Nowhere,
    };
    let mut files = FirstFiles;
    let mut other = FirstFiles;
    let options = Options {
        existing: false,
        explain: false,
        wait: 0,
        expected: None,
    };
    do_job(
        &world,
        &mut files,
        &mut other,
        job,
        options,
        Vec::new(rt.alloc()),
    )
    .ok()
}

/// The same of a job by its words.
fn done_by_words(rt: &HostRuntime, words: &str, text: &str) -> Option<(Vec<u8>, Ending)> {
    let Ok(words) = words.split(' ').collect::<Vec<&str>>(rt.alloc()) else {
        return None;
    };
    match job_of(rt.alloc(), words.as_slice()) {
        Ok(job) => done(rt, &job, text),
        Err(_) => None,
    }
}

/// A job writes this, and behind it what is said of its ending; and the program has this status.
fn gives(host: &HostRuntime, rt: &impl Abort, words: &str, text: &str, wanted: &str, ends: u8) {
    let (mut written, ending) = done_by_words(host, words, text).expect(rt, "a job that is done");
    let is_told = write!(written, "{ending}").is_ok();
    assert!(rt;
        is_told && written.as_slice() == wanted.as_bytes(),
        "{words}"
    );
    assert!(rt; status(ending) == ends, "{words}");
}

/// Jobs by their words, with the text of their sheet; what each writes, and the status of the program behind it. Of a path it
/// is looked whether something is there: so files in memory are named as one that is.
const JOBS: [(&str, &str, &str, u8); 24] = [
    ("edit /bin/sh sheet", EDITS, REPLIES, 1),
    ("check /bin/sh sheet", EDITS, REPLIES, 1),
    ("check /bin/sh sheet --diff", EDITS, "+,link,2,3000\n", 1),
    ("diff :memory: :memory:", "", "", 0),
    (
        "edit :memory: sheet",
        FIRST,
        "s1,done,1\ns2,done,2\ns3,done,3\ns4,done,4\n",
        0,
    ),
    ("edit :memory: sheet --all", EDITS, "", 1),
    ("survey /bin/sh sheet", SURVEY, "v1,done,5\n", 0),
    ("check /bin/sh sheet --survey", SURVEY, "v1,done,5\n", 0),
    (
        "survey /bin/sh sheet",
        EDITS,
        "roadlrs: fault BadHeader\n",
        3,
    ),
    ("edit /bin/sh another", EDITS, "roadlrs: fault Read\n", 3),
    (
        "at /bin/sh A1 abs 1500",
        "",
        "A1 1500 1 1500 +\n7 SPEED B 0 80 4\n",
        0,
    ),
    ("translate /bin/sh A1 abs 1500 int", "", "3/10\n", 0),
    ("strip /bin/sh A1 L SPEED", "", STRIP, 0),
    ("diagram /bin/sh A2", "", "roadlrs: NoRoute\n", 1),
    ("totals /bin/sh", "", "SPEED 4000 0 0 4000\n", 0),
    ("find /bin/sh 7", "", "A1 1000 3000 B\n", 0),
    ("find /bin/sh x", "", "error: ASSET is no asset number\n", 2),
    ("rows /bin/sh", "", ROWS, 0),
    (
        "overlay /bin/sh SPEED --side L --gaps --columns to,from",
        "",
        "to,from\n1000,0\n5000,3000\n",
        0,
    ),
    (
        "gone /bin/sh",
        "",
        "edit,key,verb,reason,asset,class,value,link,from,to,side\n",
        0,
    ),
    ("history /bin/sh 7", "", HISTORY, 0),
    ("log /bin/sh", "", FIRST, 0),
    ("audit /bin/sh", "", "sound, and as its log says\n", 0),
    (
        "ask /bin/sh sheet",
        QUESTIONS,
        "q1,place,A1,1500,1,1500,+,1\nq1,hit,7,SPEED,B,0,80,4\nq2,refused,NoAsset\n",
        1,
    ),
];

#[test]
fn each_job_is_done_in_memory(rt: HostRuntime) {
    for (words, text, wanted, ends) in &JOBS {
        gives(&rt, &rt, words, text, wanted, *ends);
    }
}
