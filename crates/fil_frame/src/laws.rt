//! What a sealed page is, and what the entries of the tables are. Table 0 goes by the bits, each further one by table
//! 0 and the table before it.

ghost use Rattle.fil_frame.specs.Laws.{SealedPagesAreWhole};
ghost use Rattle.fil_frame.specs.Tables.{IsTable};

use crate::tables::{TABLE_0, TABLE_1, TABLE_2, TABLE_3, TABLE_4, TABLE_5, TABLE_6, TABLE_7};

/// A sealed page is whole, and its frame is right.
pub fn sealed_pages_are_whole()
    ensures { SealedPagesAreWhole }
{}

/// The states after a byte.
pub fn table_0()
    ensures { IsTable 0 TABLE_0 }
{}

/// The states after a byte and 1 zero byte.
pub fn table_1()
    ensures { IsTable 1 TABLE_1 }
{}

/// The states after a byte and 2 zero bytes.
pub fn table_2()
    ensures { IsTable 2 TABLE_2 }
{}

/// The states after a byte and 3 zero bytes.
pub fn table_3()
    ensures { IsTable 3 TABLE_3 }
{}

/// The states after a byte and 4 zero bytes.
pub fn table_4()
    ensures { IsTable 4 TABLE_4 }
{}

/// The states after a byte and 5 zero bytes.
pub fn table_5()
    ensures { IsTable 5 TABLE_5 }
{}

/// The states after a byte and 6 zero bytes.
pub fn table_6()
    ensures { IsTable 6 TABLE_6 }
{}

/// The states after a byte and 7 zero bytes.
pub fn table_7()
    ensures { IsTable 7 TABLE_7 }
{}
