//! Where the fields of stored rows end, each as a mark of four bytes.

ghost use Rattle.std.specs.Prelude.{◌≡◌, ◌<◌, ◌≤◌, true, IfOk, length, map, take};
ghost use Rattle.row_store.specs.calls.Stored.{spot_start};
ghost use Rattle.row_store.specs.calls.Arena.{AreMarked, spot_of};

use page_source::NoMemory;

/// A field of a row that is stored, and where it ends among the bytes of the row. It begins where the one before it
/// ends.
#[derive(Clone, Copy, Debug, PartialEq, Eq)]
pub(crate) struct FieldSpot {
    /// Whether the field has no value.
    pub(crate) null: bool,
    /// Whether the field's bytes go on off the page of the record.
    pub(crate) off: bool,
    /// The byte behind the field's last one.
    pub(crate) end: usize,
}

/// A field's spot in four bytes: where it ends, and in the lowest two bits whether it is null and whether it goes off.
#[derive(Clone, Copy, Debug, PartialEq, Eq)]
pub(crate) struct Mark {
    code: u32,
}

/// No row has so many bytes.
const MOST_MARKED: usize = 1_073_741_824;

impl Mark {
    /// The mark of a field.
    fn new(spot: FieldSpot) -> Result<Mark, NoMemory>
        ensures { IfOk result (λ mark. spot_of mark ≡ spot) }
    {
        if spot.end >= MOST_MARKED {
            return Err(NoMemory);
        }
        let null = if spot.null { 2 } else { 0 };
        let off = if spot.off { 1 } else { 0 };
        Ok(Mark {
            code: 4 * spot.end as u32 + null + off,
        })
    }

    /// The field.
    pub(crate) fn spot(self) -> FieldSpot
        ensures value { result ≡ spot_of self }
        ensures few { result.end < 1073741824 }
    {
        FieldSpot {
            null: self.code / 2 % 2 == 1,
            off: self.code % 2 == 1,
            end: (self.code / 4) as usize,
        }
    }
}

/// Whether the marks of these fields stand there.
pub(crate) fn are_marked(marks: &[Mark], fields: &[FieldSpot], first: usize) -> bool
    ensures { result ≡ true → AreMarked (map spot_of marks.now) fields.now first }
{
    if first > marks.len() || marks.len() - first < fields.len() {
        return false;
    }
    for i in 0..fields.len() {
        if marks[first + i].spot() != fields[i] {
            return false;
        }
    }
    true
}

/// Adds the marks of these fields, and answers where they begin.
pub(crate) fn push_marks(marks: &mut Vec<Mark>, fields: &[FieldSpot]) -> Result<usize, NoMemory>
    ensures ok { IfOk result (AreMarked (map spot_of marks.new.items) fields.now) }
    ensures begins { take (length marks.old.items) marks.new.items ≡ marks.old.items }
{
    let first = marks.len();
    for spot in fields {
        marks.push(Mark::new(*spot)?)?;
    }
    Ok(first)
}

/// Where the last field of a row ends.
pub(crate) fn end_of(fields: &[FieldSpot]) -> usize
    ensures { result ≡ spot_start fields.now (length fields.now) }
{
    match fields.last() {
        Some(spot) => spot.end,
        None => 0,
    }
}

/// Where field `i` of a row begins.
pub(crate) fn field_start(marks: &[Mark], i: usize) -> usize
    requires { i ≤ length marks.now }
    ensures { result ≡ spot_start (map spot_of marks.now) i }
{
    if i == 0 { 0 } else { marks[i - 1].spot().end }
}
