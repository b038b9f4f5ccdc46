//! Where a node pointer stands on its level.

ghost use Rattle.std.specs.Prelude.{◌≡◌};
ghost use Rattle.tree_walk.specs.Walk.{page_after, origin_after};

pub(crate) use page_source::FIL_NULL;
use page_source::Page;

/// The page that holds a node pointer, its origin there, and how many pages of the level come behind that page.
#[derive(Clone, Copy, Debug, PartialEq, Eq)]
pub struct Cursor {
    pub number: u32,
    pub origin: usize,
    pub more: u32,
}

/// Where the next node pointer of a level stands: on the same page, at the head of the page behind it, or nowhere.
#[derive(Clone, Copy, Debug, PartialEq, Eq)]
pub enum Next {
    Here(Cursor),
    Ahead(Cursor),
    End,
}

/// The page that the next node pointer stands on.
pub(crate) fn page_after<'a>(next: Next, parent: &'a Page, after: &'a Page) -> &'a Page
    ensures { result.now ≡ page_after next parent.now after.now }
{
    match next {
        Next::Ahead(_) => after,
        Next::Here(_) => parent,
        Next::End => parent,
    }
}

/// The origin of the next node pointer, if there is one.
pub(crate) fn origin_after(next: Next) -> Option<usize>
    ensures { result ≡ origin_after next }
{
    match next {
        Next::Here(cursor) => Some(cursor.origin),
        Next::Ahead(cursor) => Some(cursor.origin),
        Next::End => None,
    }
}
