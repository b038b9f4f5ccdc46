//! Tests of public calls over single pages and lists of pages: frames, records, index pages, the header of the
//! space, its extents, its segments and its audit.
#![tactic(auto)]

#[cfg(test)]
mod compact_record_tests;
#[cfg(test)]
mod extent_map_tests;
#[cfg(test)]
mod fil_frame_tests;
#[cfg(test)]
mod index_page_tests;
#[cfg(test)]
mod inode_segments_tests;
#[cfg(test)]
mod leaf_salvage_tests;
#[cfg(test)]
mod page_packer_tests;
#[cfg(test)]
mod space_audit_tests;
#[cfg(test)]
mod space_header_tests;
#[cfg(test)]
mod space_layout_tests;
#[cfg(test)]
mod vectors_tests;
