//! What the definitions of a record say together, each the contract of a function that does nothing.

ghost use Rattle.compact_record.specs.Laws.{ReadsWhatStands, ReadsWhatIsPlaced};

/// Parts that stand around an origin are read there, and their record is spelled as it must be.
pub fn parts_that_stand_are_read()
    ensures { ReadsWhatStands }
{}

/// A record that is placed is read as its parts, with the header that it was given.
pub fn a_placed_record_is_read()
    ensures { ReadsWhatIsPlaced }
{}
