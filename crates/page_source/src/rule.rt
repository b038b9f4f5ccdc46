//! The rules of a sound tablespace, by number and name, and the fault that names a broken one.

ghost use Rattle.std.specs.Prelude.{◌≡◌};
ghost use Rattle.page_source.specs.Rules.{rule_number, rule_name};

/// A rule of a sound tablespace: what holds where it isn't broken. They stand in the order of their
/// numbers, from 1 on.
#[derive(Clone, Copy, Debug, PartialEq, Eq)]
pub enum Rule {
    /// The file has four whole pages or more.
    FileSize,
    /// Page 0 has right checksums, its number, and the end of its LSN.
    HeadFrame,
    /// Page 0 has the type of a space header.
    HeadType,
    /// The space id in the frame of page 0 is that in the space header.
    HeadSpace,
    /// The flags are those of the schema's format, with or without DATA DIRECTORY.
    HeadFlags,
    /// The stated size is 4 to 4,194,304 pages, and the file has them.
    HeadSize,
    /// The free limit is a whole number of extents: 64 pages below size 64, else up to the size.
    HeadLimit,
    /// A later descriptor page has a whole frame.
    XdesFrame,
    /// A later descriptor page has the type of one.
    XdesType,
    /// An extent's state is one of the four.
    ExtentState,
    /// The number of used pages of an extent goes with its state.
    ExtentUse,
    /// No page past the size is used.
    ExtentPastEnd,
    /// The first extent of a descriptor page is one of fragments, whose first two pages are used.
    ExtentSystem,
    /// The two lists of inode pages are linked, of used fragment pages, none twice.
    InodeList,
    /// An inode page has a whole frame.
    InodeFrame,
    /// An inode page has the type of one.
    InodeType,
    /// All inodes of a page on the list of full ones are used, and not all of one on the other.
    InodeFill,
    /// A used inode has its magic number.
    SegmentMagic,
    /// A segment's id is below the next one to be given, and no earlier inode's.
    SegmentId,
    /// A list of extents is linked both ways, with its length and its ends.
    ExtentList,
    /// A list has exactly the extents that belong there, and each extent belongs on one.
    ExtentHome,
    /// A page in a segment's slot is a used page of a fragment extent.
    FragmentSlot,
    /// The stated numbers of used pages are right.
    UseCounts,
    /// A used page of a fragment extent is claimed once: by the system, an inode list or a slot.
    PageOwner,
    /// A used page has right checksums, its number, the space's id and the end of its LSN.
    Frame,
    /// The type of a used page is one that its owner may have.
    PageKind,
    /// A root is an index page below the size that a segment uses, and in no earlier tree.
    RootPlace,
    /// A root names two segments that no other root names, and the second uses it.
    RootSegments,
    /// A node pointer leads to an index page that the right segment uses, in no tree yet.
    ChildPlace,
    /// A page of a tree has the index id of its root.
    IndexId,
    /// The neighbours of a page of a tree are those on its level.
    Sibling,
    /// The level of a page is one below its parent's; a root's is at most 50.
    Level,
    /// An index page is in the new format; its directory slots, heap top and counts fit together.
    PageHeader,
    /// Infimum and supremum have their names, heap numbers and statuses; the supremum is last.
    PageEnds,
    /// The records of a page make one chain, of as many as the page states.
    RecordChain,
    /// The records of the chain have different heap numbers.
    HeapNumbers,
    /// The free records make one list, and have the other heap numbers.
    FreeList,
    /// The directory slots cut the chain into groups, each owned by its last record.
    Directory,
    /// The records are those of a leaf, or node pointers.
    RecordKind,
    /// Null bits and lengths of every record are spelled as they must be.
    RecordSpelling,
    /// The records lie apart, between the supremum and the heap top.
    RecordRoom,
    /// A page has a record, unless it is the root and a leaf.
    EmptyPage,
    /// The keys of a page rise from each record to the next.
    KeyOrder,
    /// The keys of a page lie between those of the node pointers on either side.
    Separator,
    /// The first node pointer of a level has the mark of the least key, and no other record.
    MinimumMark,
    /// Each segment is named by a root.
    SegmentUnnamed,
    /// A value of a row that isn't deleted is one of its column's type, and not too long.
    Value,
    /// The pages of a long value are of the right segment and type, in no tree and no other value.
    ChainPlace,
    /// The pages of a long value have as many bytes as are stated, and end there.
    ChainLength,
    /// Any other used page of a segment is free, or holds an old version among the leaves.
    UnreachedKind,
    /// A long text of utf8mb4 is one, of no more characters than its column takes.
    TextSpelling,
}

/// The first broken rule of a file, and the page that it names.
#[derive(Clone, Copy, Debug, PartialEq, Eq)]
pub struct Fault {
    /// The rule that is broken.
    pub rule: Rule,
    /// The number of the page that is named, as docs/RULES.md says of each rule.
    pub page: u32,
}

impl Rule {
    /// The rule's number, 1 to 51.
    pub fn number(self) -> u8
        ensures { result ≡ rule_number self }
    {
        match self {
            Rule::FileSize => 1,
            Rule::HeadFrame => 2,
            Rule::HeadType => 3,
            Rule::HeadSpace => 4,
            Rule::HeadFlags => 5,
            Rule::HeadSize => 6,
            Rule::HeadLimit => 7,
            Rule::XdesFrame => 8,
            Rule::XdesType => 9,
            Rule::ExtentState => 10,
            Rule::ExtentUse => 11,
            Rule::ExtentPastEnd => 12,
            Rule::ExtentSystem => 13,
            Rule::InodeList => 14,
            Rule::InodeFrame => 15,
            Rule::InodeType => 16,
            Rule::InodeFill => 17,
            Rule::SegmentMagic => 18,
            Rule::SegmentId => 19,
            Rule::ExtentList => 20,
            Rule::ExtentHome => 21,
            Rule::FragmentSlot => 22,
            Rule::UseCounts => 23,
            Rule::PageOwner => 24,
            Rule::Frame => 25,
            Rule::PageKind => 26,
            Rule::RootPlace => 27,
            Rule::RootSegments => 28,
            Rule::ChildPlace => 29,
            Rule::IndexId => 30,
            Rule::Sibling => 31,
            Rule::Level => 32,
            Rule::PageHeader => 33,
            Rule::PageEnds => 34,
            Rule::RecordChain => 35,
            Rule::HeapNumbers => 36,
            Rule::FreeList => 37,
            Rule::Directory => 38,
            Rule::RecordKind => 39,
            Rule::RecordSpelling => 40,
            Rule::RecordRoom => 41,
            Rule::EmptyPage => 42,
            Rule::KeyOrder => 43,
            Rule::Separator => 44,
            Rule::MinimumMark => 45,
            Rule::SegmentUnnamed => 46,
            Rule::Value => 47,
            Rule::ChainPlace => 48,
            Rule::ChainLength => 49,
            Rule::UnreachedKind => 50,
            Rule::TextSpelling => 51,
        }
    }

    /// The rule's name, as it is printed.
    pub fn name(self) -> &'static str
        ensures { result.now ≡ rule_name self }
    {
        match self {
            Rule::FileSize => "file-size",
            Rule::HeadFrame => "head-frame",
            Rule::HeadType => "head-type",
            Rule::HeadSpace => "head-space",
            Rule::HeadFlags => "head-flags",
            Rule::HeadSize => "head-size",
            Rule::HeadLimit => "head-limit",
            Rule::XdesFrame => "xdes-frame",
            Rule::XdesType => "xdes-type",
            Rule::ExtentState => "extent-state",
            Rule::ExtentUse => "extent-use",
            Rule::ExtentPastEnd => "extent-past-end",
            Rule::ExtentSystem => "extent-system",
            Rule::InodeList => "inode-list",
            Rule::InodeFrame => "inode-frame",
            Rule::InodeType => "inode-type",
            Rule::InodeFill => "inode-fill",
            Rule::SegmentMagic => "segment-magic",
            Rule::SegmentId => "segment-id",
            Rule::ExtentList => "extent-list",
            Rule::ExtentHome => "extent-home",
            Rule::FragmentSlot => "fragment-slot",
            Rule::UseCounts => "use-counts",
            Rule::PageOwner => "page-owner",
            Rule::Frame => "frame",
            Rule::PageKind => "page-kind",
            Rule::RootPlace => "root-place",
            Rule::RootSegments => "root-segments",
            Rule::ChildPlace => "child-place",
            Rule::IndexId => "index-id",
            Rule::Sibling => "sibling",
            Rule::Level => "level",
            Rule::PageHeader => "page-header",
            Rule::PageEnds => "page-ends",
            Rule::RecordChain => "record-chain",
            Rule::HeapNumbers => "heap-numbers",
            Rule::FreeList => "free-list",
            Rule::Directory => "directory",
            Rule::RecordKind => "record-kind",
            Rule::RecordSpelling => "record-spelling",
            Rule::RecordRoom => "record-room",
            Rule::EmptyPage => "empty-page",
            Rule::KeyOrder => "key-order",
            Rule::Separator => "separator",
            Rule::MinimumMark => "minimum-mark",
            Rule::SegmentUnnamed => "segment-unnamed",
            Rule::Value => "value",
            Rule::ChainPlace => "chain-place",
            Rule::ChainLength => "chain-length",
            Rule::UnreachedKind => "unreached-kind",
            Rule::TextSpelling => "text-spelling",
        }
    }
}
