//! The web page, written into a folder.

ghost use Rattle.std.specs.Prelude.{◌≡◌, ◌⊎◌};

use crate::endings::Ending;
use crate::fault::ProgramFault;
use crate::write_page;
use std::alloc::Global;
use std::fs::OpenFile;
use std::io::ErrorKind;
use std::path::Path;
use std::rt::Runtime;
use std::{fs, io};

// Makes a folder, unless something of its name is there.
fn make_folder<R: Runtime<A = Global>>(rt: &R, dir: &str) -> io::Result<()> {
    match fs::create_dir(rt, dir) {
        Err(error) if error.kind() != ErrorKind::AlreadyExists => Err(error),
        _ => Ok(()),
    }
}

// Writes the page to a file of another name, until all of it is on the disk.
fn write_part<R: Runtime<A = Global>>(rt: &R, part: Path<'_>) -> io::Result<()> {
    let mut file = fs::create(rt, part)?;
    write_page(&mut file)?;
    file.sync_all()
}

// Writes the page, and puts it in its place. Where that fails, what stands there stays, and the part is removed.
fn put_page<R: Runtime<A = Global>>(rt: &R, part: Path<'_>, page: Path<'_>) -> io::Result<()> {
    let put = match write_part(rt, part) {
        Ok(()) => fs::rename(rt, part, page),
        Err(error) => Err(error),
    };
    if put.is_err() {
        let _ = fs::remove_file(rt, part);
    }
    put
}

fn make_page<R: Runtime<A = Global>>(rt: &R, dir: &str) -> io::Result<()> {
    let page = Path::new(dir).join(rt.alloc(), "index.html")?;
    let part = Path::new(dir).join(rt.alloc(), "index.html.new")?;
    make_folder(rt, dir)?;
    put_page(rt, part.as_path(), page.as_path())
}

/// Writes the web page into a folder, as `index.html`. A folder that is missing is made, but none above it. A stop leaves
/// the page that stood there, or the new one, whole; and at worst a part of the new one as `index.html.new`.
pub fn do_page<R: Runtime<A = Global>>(rt: &R, dir: &str) -> Ending
    ensures { (result ≡ Ending.Done) ⊎ (result ≡ Ending.Stopped ProgramFault.Memory)
        ⊎ (result ≡ Ending.Stopped ProgramFault.Write) }
{
    match make_page(rt, dir) {
        Ok(()) => Ending::Done,
        Err(error) if error.kind() == ErrorKind::OutOfMemory => {
            Ending::Stopped(ProgramFault::Memory)
        }
        Err(_) => Ending::Stopped(ProgramFault::Write),
    }
}
