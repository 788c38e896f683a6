//! The web page of an inventory: one file, which stands anywhere and asks a served inventory.

mod back;
mod front;

ghost use Rattle.std.specs.Prelude.{OnOk};
ghost use Rattle.std.specs.Io.KnownBytes.{Appends};

use back::page_back;
use front::page_front;
use std::io;
use std::io::Write;

/// The page: its front, and behind that its back.
pub static PAGE: &str = page_front!(page_back);

/// Writes the page, byte for byte.
///
/// # Errors
/// Where the writer takes nothing more; then a part of the page may be written.
pub fn write_page<W: Write>(to: &mut W) -> io::Result<()>
    ensures { OnOk result (Appends (W.contents to.old) (W.contents to.new) PAGE.now) }
{
    to.write_all(PAGE.as_bytes())
}
