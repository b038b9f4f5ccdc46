//! The front and the end of a text.

ghost use Rattle.std.specs.Prelude.{◌≡◌, ◌≢◌, ℕ, ◌++◌, ◌↔◌, List, IfSome, IsNone, IsTrue};

/// Whether two texts are one.
fn are_same(text: &[u8], other: &[u8]) -> bool
    ensures { IsTrue result ↔ (text.now ≡ other.now) }
{
    text == other
}

/// What follows a front of the text.
pub(crate) fn behind<'a>(text: &'a [u8], front: &[u8]) -> Option<&'a [u8]>
    ensures found { IfSome result (λ rest. text.now ≡ front.now ++ rest.now) }
    ensures none { IsNone result → (rest : List ℕ) → text.now ≢ front.now ++ rest }
{
    if text.len() < front.len() {
        return None;
    }
    let (start, rest) = text.split_at(front.len());
    if are_same(start, front) {
        Some(rest)
    } else {
        None
    }
}

/// What goes before an end of the text.
pub(crate) fn ahead<'a>(text: &'a [u8], end: &[u8]) -> Option<&'a [u8]>
    ensures found { IfSome result (λ front. text.now ≡ front.now ++ end.now) }
    ensures none { IsNone result → (front : List ℕ) → text.now ≢ front ++ end.now }
{
    if text.len() < end.len() {
        return None;
    }
    let (front, rest) = text.split_at(text.len() - end.len());
    if are_same(rest, end) {
        Some(front)
    } else {
        None
    }
}
