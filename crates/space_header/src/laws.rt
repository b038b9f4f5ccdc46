//! Laws of the definitions.

ghost use Rattle.space_header.specs.Laws.{LinksOneList, LinksOnePageList, WrittenFieldsAreRead};

/// A base and the nodes of extents link one list at the most.
pub fn links_one_list()
    ensures { LinksOneList }
{}

/// A base and the nodes of pages, such as inode pages, link one list at the most.
pub fn links_one_page_list()
    ensures { LinksOnePageList }
{}

/// A list base, a list node and a header that were written are read again.
pub fn written_fields_are_read()
    ensures { WrittenFieldsAreRead }
{}
