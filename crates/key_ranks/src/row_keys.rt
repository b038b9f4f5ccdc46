//! The keys of rows.

ghost use Rattle.std.specs.Prelude.{◌≡◌, ◌<◌, List, length, slice_index_or, None};
ghost use Rattle.std.specs.Option.{option_copied};
ghost use Rattle.column_values.specs.declared.field.FieldType.{FieldType};
ghost use Rattle.column_values.specs.Order.{key_cmp};
ghost use Rattle.key_ranks.specs.Keys.{KeyTable};

use column_values::FieldType;
use std::cmp::Ordering;

/// The keys of rows, each of which has a number.
pub trait RowKeys {
    /// The kinds of the values of a key, and the key of each row.
    ghost table: { Self → KeyTable };

    /// The kind of the first value of a key.
    fn kind(&self) -> FieldType
        ensures { (d : FieldType) → 0 < length (table self.now).kinds
            → result ≡ slice_index_or (table self.now).kinds 0 d };

    /// The first value of the key of a row.
    fn first(&self, row: usize) -> Option<&[u8]>
        ensures value { option_copied result ≡ slice_index_or ((table self.now).key row) 0 None }
        ensures whole { length ((table self.now).key row) ≡ length (table self.now).kinds };

    /// The second value of the key of a row; none if that is null, or if a key has no second value. Nothing is asked of
    /// it, since no answer rests on it.
    fn second(&self, row: usize) -> Option<&[u8]>;

    /// The order of the keys of two rows.
    fn compare(&self, a: usize, b: usize) -> Ordering
        ensures { result ≡ key_cmp (table self.now).kinds ((table self.now).key a) ((table self.now).key b) };
}
