//! Where things stand on a page of inodes (fsp0fsp.h).

/// FSEG_INODE_PAGE_NODE, the list node of the page.
pub const INODE_PAGE_NODE: u16 = 38;

/// FSEG_ARR_OFFSET: the first inode begins here.
pub const FIRST_INODE: usize = 50;

/// FSEG_INODE_SIZE, the bytes of an inode.
pub const INODE_SIZE: usize = 192;

/// FSEG_MAGIC_N_VALUE, the number in each used inode.
pub const MAGIC_NUMBER: u32 = 97_937_874;
