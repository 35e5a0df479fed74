//! Lists of things that are shown.

ghost use Rattle.std.specs.Prelude.{◌≡◌, IfOk, map};
ghost use Rattle.serde_json.specs.View.{view};
ghost use Rattle.dap_bodies.specs.Sizes.{shown_list};

use serde_json::Value;
use std::alloc::{AllocError, Global};

/// How many bytes the items of a list have at most.
const LIST_LIMIT: usize = 1_000_000;

/// How many bytes a byte of a text takes at most where it is written, as `\u0000`.
pub(crate) const BYTE_SIZE: usize = 6;

/// A value, and how many bytes it takes at most where it is written.
#[derive(Drop)]
pub(crate) struct Row {
    pub value: Value,
    pub size: usize,
}

/// Something that is shown as a value.
pub(crate) trait Shown {
    ghost use Rattle.std.specs.Prelude.{◌≡◌, IfOk};
    ghost use Rattle.serde_json.specs.Data.{Data};
    ghost use Rattle.serde_json.specs.View.{view};
    ghost use Rattle.dap_bodies.specs.Sizes.{size_of};

    /// The value that it is shown as.
    ghost shown: { Self → Data };

    /// Returns it as a value, with how many bytes that takes at most.
    ///
    /// # Errors
    ///
    /// An allocation failed.
    fn into_row(self, alloc: Global) -> Result<Row, AllocError>
        ensures value { IfOk result (λ row. view row.value ≡ shown self) }
        ensures size { IfOk result (λ row. row.size ≡ size_of (shown self)) };
}

/// Returns the list of the values that these are shown as: of as many as fit, from the first on.
pub(crate) fn list_of<T: Shown + Drop>(alloc: Global, all: Vec<T>) -> Result<Value, AllocError>
    ensures { IfOk result (λ value. view value ≡ shown_list (map T.shown all.items)) }
{
    let mut values = Vec::new(alloc);
    let mut room = LIST_LIMIT;
    for one in all {
        let row = one.into_row(alloc)?;
        if room <= row.size {
            return Ok(Value::Array(values));
        }
        room -= row.size + 1;
        values.push(row.value)?;
    }
    Ok(Value::Array(values))
}
