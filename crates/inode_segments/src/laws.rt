//! Laws of the definitions.

ghost use Rattle.inode_segments.specs.Laws.{InodeChecksAreSound, WrittenInodesAreRead};

use space_header::laws::written_fields_are_read;

/// The checks of the inode lists and of the inodes find nothing exactly where these are sound.
pub fn inode_checks_are_sound()
    ensures { InodeChecksAreSound }
{}

/// An inode that was written is read again.
pub fn written_inodes_are_read()
    ensures { WrittenInodesAreRead }
{
    written_fields_are_read();
}
