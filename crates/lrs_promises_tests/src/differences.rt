//! What two inventories differ in.

use crate::words::{call_named, do_list, open, print};
use lrs_desk::{Desk, Inventory, Keeper, Plain};
use lrs_difference::write_difference;
use lrs_machine::Limits;

fn print_difference(rt: &HostRuntime, before: &Inventory, after: &Inventory) -> Option<()> {
    let mut text = Vec::new(rt.alloc());
    match write_difference(rt.alloc(), &mut text, before.kept(), after.kept()) {
        Ok(()) => print(rt, text.as_slice()),
        Err(_) => None,
    }
}

/// Does the call that a word names, if it names one.
fn do_named(rt: &HostRuntime, desk: &mut Desk<Plain>, word: &str) -> Option<()> {
    if word.is_empty() {
        return Some(());
    }
    let call = call_named(rt, word)?;
    do_list(rt, &[call], desk)
}

/// Prints the difference of what a call makes of an empty inventory and another inventory, and that of the two exchanged.
fn compare(
    rt: &HostRuntime,
    made: &mut Desk<Plain>,
    inventory: &Inventory,
    word: &str,
) -> Option<()> {
    do_named(rt, made, word)?;
    print_difference(rt, made.inventory(), inventory)?;
    print_difference(rt, inventory, made.inventory())
}

/// Prints in what the inventory of a desk differs from the one that a call makes of an empty one, as `edits:first.csv`, and
/// the other way round; from the empty one itself where the word is empty.
pub fn show_differences<K: Keeper>(rt: &HostRuntime, desk: &Desk<K>, word: &str) -> Option<()> {
    match open(rt, Limits::full(), Plain::empty(rt.alloc())) {
        Ok(mut made) => {
            let shown = compare(rt, &mut made, desk.inventory(), word);
            made.into_keeper().discard();
            shown
        }
        Err(plain) => {
            plain.discard();
            None
        }
    }
}
