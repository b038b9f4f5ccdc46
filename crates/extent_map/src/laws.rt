//! Laws of the definitions.

ghost use Rattle.extent_map.specs.Laws.{DescriptorChecksAreSound, FlagsAreFragmentPages};
ghost use Rattle.extent_map.specs.Laws.{HeadChecksAreSound, UsedPagesAreOfExtents, BitsAreUsedPages};
ghost use Rattle.extent_map.specs.Laws.{WrittenExtentsAreRead};

use space_header::laws::written_fields_are_read;

/// The checks of the head find nothing exactly where it is that of a tablespace with these flags.
pub fn head_checks_are_sound()
    ensures { HeadChecksAreSound }
{}

/// The checks of the descriptors find nothing exactly where these are sound.
pub fn descriptor_checks_are_sound()
    ensures { DescriptorChecksAreSound }
{}

/// The used pages of an extent are those of its 64 pages that are used, each once.
pub fn used_pages_are_of_extents()
    ensures { UsedPagesAreOfExtents }
{}

/// The flags say of every page whether it is a fragment page.
pub fn flags_are_fragment_pages()
    ensures { FlagsAreFragmentPages }
{}

/// The bits of a descriptor's number say which pages of its extent are used.
pub fn bits_are_used_pages()
    ensures { BitsAreUsedPages }
{}

/// A descriptor that was written is read again.
pub fn written_extents_are_read()
    ensures { WrittenExtentsAreRead }
{
    written_fields_are_read();
}
