//! The five bytes before the origin of a record (rem0rec).

ghost use Rattle.std.specs.Prelude.{◌≡◌, ◌<◌};
ghost use Rattle.compact_record.specs.Header.{HasHeaderBytes, next_field, next_origin, heap_number, status_of};
ghost use Rattle.compact_record.specs.Header.{owned_by, is_minimum, is_deleted};

use page_source::{PAGE_SIZE, Page, read_be};

/// The next field (REC_NEXT), in the two bytes before the origin, 0 at the end: the next origin is so far ahead,
/// around the end of the page.
pub fn next_field(page: &Page, origin: usize) -> u16
    requires { HasHeaderBytes origin }
    ensures { result ≡ next_field page.now origin }
{
    read_be::<2>(page, origin - 2) as u16
}

/// The origin of the record that the next field leads to, 0 at the end.
#[tactic(auto, unfolding(crate::specs::Header::next_origin))]
pub fn next_origin(page: &Page, origin: usize) -> usize
    requires { HasHeaderBytes origin }
    ensures value { result ≡ next_origin page.now origin }
    ensures within { result < 16384 }
{
    let next = usize::from(next_field(page, origin));
    if next == 0 {
        0
    } else {
        (origin + next) % PAGE_SIZE
    }
}

/// The heap number (REC_NEW_HEAP_NO): 13 bits, in the two bytes from the fourth before the origin on.
#[tactic(auto, unfolding(crate::specs::Header::heap_number))]
pub fn heap_number(page: &Page, origin: usize) -> u16
    requires { HasHeaderBytes origin }
    ensures value { result ≡ heap_number page.now origin }
    ensures within { result < 8192 }
{
    (read_be::<2>(page, origin - 4) / 8) as u16
}

/// The status (REC_NEW_STATUS), 0 to 7, in the third byte before the origin: 0 a row, 1 a node pointer, 2 the infimum,
/// 3 the supremum.
#[tactic(auto, unfolding(crate::specs::Header::status_of))]
pub fn status(page: &Page, origin: usize) -> u8
    requires { HasHeaderBytes origin }
    ensures { result ≡ status_of page.now origin }
{
    page.bytes()[origin - 3] % 8
}

/// How many records a record owns, 0 if it owns none (REC_NEW_N_OWNED): four bits, in the fifth byte before its
/// origin.
#[tactic(auto, unfolding(crate::specs::Header::owned_by))]
pub fn owned(page: &Page, origin: usize) -> u8
    requires { HasHeaderBytes origin }
    ensures { result ≡ owned_by page.now origin }
{
    page.bytes()[origin - 5] % 16
}

/// Whether the record has the minimum mark (REC_INFO_MIN_REC_FLAG): bit 4 of the fifth byte before the origin.
#[tactic(auto, unfolding(crate::specs::Header::is_minimum))]
pub fn minimum(page: &Page, origin: usize) -> bool
    requires { HasHeaderBytes origin }
    ensures { result ≡ is_minimum page.now origin }
{
    page.bytes()[origin - 5] / 16 % 2 == 1
}

/// Whether the record has the delete mark (REC_INFO_DELETED_FLAG): bit 5 of the fifth byte before the origin.
#[tactic(auto, unfolding(crate::specs::Header::is_deleted))]
pub fn deleted(page: &Page, origin: usize) -> bool
    requires { HasHeaderBytes origin }
    ensures { result ≡ is_deleted page.now origin }
{
    page.bytes()[origin - 5] / 32 % 2 == 1
}
