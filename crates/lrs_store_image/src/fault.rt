//! Why nothing is read.

ghost use Rattle.std.specs.Prelude.{◌≡◌};
ghost use Rattle.lrs_store_image.specs.Readings.{of_read};

use crate::RowsFault;
use lrs_image::LoadFault;
use lrs_measure::Rows;

/// What the rows of a table give, in the terms of a keeper.
pub(crate) fn as_loaded<T>(found: Result<Vec<T>, RowsFault>) -> Result<Rows<T>, LoadFault>
    ensures { result ≡ of_read (λ v. v.items) found }
{
    match found {
        Ok(rows) => Ok(Rows::from_vec(rows)),
        Err(RowsFault::Memory) => Err(LoadFault::Memory),
        Err(RowsFault::Unsound(table)) => Err(LoadFault::Unsound(table)),
    }
}
