//! The count of faults of a real object.

ghost use Rattle.std.specs.Prelude.{◌≡◌, Ok, is_err};
ghost use Rattle.page_source.specs.Faults.{HasCause, count_after};

use crate::errors::Failed;
use std::io;

/// The answer of a device, with its error counted as a fault.
pub fn counted<T: Drop>(faults: &mut u64, done: io::Result<T>) -> Result<T, Failed>
    ensures ok { (value : T) → done ≡ Ok value → result ≡ Ok value }
    ensures same { (value : T) → result ≡ Ok value → done ≡ Ok value }
    ensures count { faults.new ≡ count_after faults.old (is_err result) }
    ensures cause { HasCause faults.old faults.new result }
{
    match done {
        Ok(value) => Ok(value),
        Err(_) => {
            *faults = faults.saturating_add(1);
            Err(Failed)
        }
    }
}
