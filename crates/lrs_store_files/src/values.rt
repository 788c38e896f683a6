//! Values of a row, by their places.

ghost use Rattle.std.specs.Prelude.{◌≡◌, map, OnOk};
ghost use Rattle.sqlite_value.specs.Order.{column};

use sqlite_value::row::Row;
use std::alloc::AllocError;

/// Puts the values of a row at these places in place of what is there.
///
/// # Errors
/// When memory runs out.
pub fn take_values(values: &mut Row, row: &Row, places: &[usize]) -> Result<(), AllocError>
    ensures { OnOk result (values.new ≡ map (column row.now) places.now) }
{
    values.clear();
    for place in places {
        values.push(row.get(*place))?;
    }
    Ok(())
}
