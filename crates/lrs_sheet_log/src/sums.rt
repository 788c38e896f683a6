//! The sum of a log, and the identity of an inventory.

ghost use Rattle.std.specs.Prelude.{◌≡◌, ◌++◌, ◌∷◌, [], map, take};
ghost use Rattle.hex.specs.Hex.{encode_lower};
ghost use Rattle.sha2.specs.Sha256.{sha256};
ghost use Rattle.lrs_machine.specs.Image.{state_of};
ghost use Rattle.lrs_image.specs.OpenLists.{image_of};
ghost use Rattle.lrs_sheet_log.specs.Log.{edit_of_row};
ghost use Rattle.lrs_sheet_log.specs.Sums as spec;
ghost use Rattle.lrs_sheet_log.specs.Sums.{next_sum, no_sum, sum_of};

use crate::lines::{empty_fields, first_edits};
use itoa::Buffer;
use lrs_image::ImageLists;
use lrs_machine::Edit;
use sha2::{Digest, Sha256};

// Bytes in hexadecimal digits.
fn digits_of(bytes: [u8; 32]) -> [u8; 64]
    ensures { result ≡ encode_lower bytes }
{
    let mut digits = [b'0'; 64];
    match hex::encode_to_slice(bytes, &mut digits) {
        Ok(()) => digits,
        Err(_) => unreachable!(),
    }
}

// The digest of a sum, a number, a key and a line with a comma behind each of the first three, of what stands behind the
// line, and of a line feed.
fn digest_of(sum: &[u8; 64], number: &[u8], key: &[u8], line: &[u8], behind: &[u8]) -> [u8; 32]
    ensures { result ≡ sha256 (sum.now ++ 44 ∷ (number.now
        ++ 44 ∷ (key.now ++ 44 ∷ (line.now ++ (behind.now ++ 10 ∷ []))))) }
{
    let mut hasher = Sha256::new();
    hasher.update(sum);
    hasher.update(b",");
    hasher.update(number);
    hasher.update(b",");
    hasher.update(key);
    hasher.update(b",");
    hasher.update(line);
    hasher.update(behind);
    hasher.update(b"\n");
    hasher.finalize()
}

// The sum up to the edit of a number, from the sum up to the edit before it.
fn next_sum(sum: &[u8; 64], number: u64, edit: &Edit) -> [u8; 64]
    ensures { result ≡ next_sum sum.now number (edit_of_row edit.now) }
{
    let line = edit.line.as_str().as_bytes();
    let mut digits = Buffer::new();
    let number = digits.format(number).as_bytes();
    digits_of(digest_of(sum, number, edit.key.bytes(), line, empty_fields(line)))
}

// The sum of no edits.
fn no_sum() -> [u8; 64]
    ensures { result ≡ no_sum }
{
    [b'0'; 64]
}

// The sum of edits.
fn sum_of(edits: &[Edit]) -> [u8; 64]
    ensures { result ≡ sum_of (map edit_of_row edits.now) }
{
    let mut sum = no_sum();
    for place in 0..edits.len() {
        sum = next_sum(&sum, place as u64 + 1, &edits[place]);
    }
    sum
}

/// The sum of the first edits of a log, so many of them, or all. It takes no memory.
pub fn sum_of_log(kept: &ImageLists, count: u64) -> [u8; 64]
    ensures { result ≡ sum_of (take count (state_of (image_of kept.now)).done) }
{
    sum_of(first_edits(&kept.edits, count))
}

// The first digits of a sum.
fn first_digits(sum: [u8; 64]) -> [u8; 16]
    ensures { result ≡ take 16 sum }
{
    let mut digits = [b'0'; 16];
    digits.copy_from_slice(&sum[..16]);
    digits
}

// The identity of an inventory with these edits.
fn identity_of(edits: &[Edit]) -> Option<[u8; 16]>
    ensures { result ≡ spec.identity_of (map edit_of_row edits.now) }
{
    match edits {
        [] => None,
        [first, ..] => Some(first_digits(next_sum(&no_sum(), 1, first))),
    }
}

/// The identity of an inventory; none where it has no edits. It takes no memory.
pub fn identity_of_log(kept: &ImageLists) -> Option<[u8; 16]>
    ensures { result ≡ spec.identity_of (state_of (image_of kept.now)).done }
{
    identity_of(&kept.edits)
}
