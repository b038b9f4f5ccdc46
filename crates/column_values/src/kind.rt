//! The types of columns.

/// The type of a column (data0type), with the bytes that its values take in a record.
#[derive(Clone, Copy, Debug, PartialEq, Eq)]
pub enum ColumnType {
    /// A whole number of `width` bytes: 1 `tinyint`, 2 `smallint`, 3 `mediumint`, 4 `int`,
    /// 8 `bigint`; one that isn't signed is `unsigned`.
    Int { width: u8, signed: bool },
    /// Three bytes.
    Date,
    /// `n` bytes of one-byte characters, 1 to 255, filled with spaces.
    Char { n: u32 },
    /// Up to `n` bytes of text, 1 to 65,535.
    Varchar { n: u32 },
    /// `n` bytes, 1 to 255.
    Binary { n: u32 },
    /// Up to `n` bytes, 1 to 65,535.
    Varbinary { n: u32 },
    /// A text kind by its greatest number of bytes: 255 `tinytext`, 65,535 `text`, 16,777,215 `mediumtext`,
    /// 4,294,967,295 `longtext`.
    Text { n: u32 },
    /// A blob kind, of the same lengths.
    Blob { n: u32 },
    /// A `varchar` of up to `n` characters of utf8mb4, 1 to 16,383, of one to four bytes each.
    Utf8Varchar { n: u32 },
    /// A text kind of utf8mb4, of up to `n` bytes.
    Utf8Text { n: u32 },
    /// A date and a time, with `f` digits of a second's fraction, 0 to 6: five bytes, and one for each two digits
    /// (my_time).
    DateTime { f: u8 },
    /// Seconds from 1970-01-01 00:00:00 UTC, with `f` digits of a second's fraction, 0 to 6: four bytes, and one for
    /// each two digits (my_time).
    Timestamp { f: u8 },
    /// One byte: 0, or the years since 1900.
    Year,
    /// A number of `p` digits, 1 to 38, `s` of them behind the point, at most 30: four bytes for each nine digits on
    /// either side of the point, and one to four for what is left over there (decimal).
    Decimal { p: u8, s: u8 },
}
