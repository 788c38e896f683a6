//! Why a table is not read.

ghost use Rattle.lrs_store_image.specs.TableReadings.{Reads};

use lrs_image::LoadFault;
use lrs_machine::Table;

/// What a table's test gives, as what its reading gives.
pub(crate) fn as_read<T>(found: Result<T, Table>) -> Result<T, LoadFault>
    ensures { Reads found result }
{
    match found {
        Ok(rows) => Ok(rows),
        Err(table) => Err(LoadFault::Unsound(table)),
    }
}
