//! Column types, the fields of an index, the values that their bytes spell, and their order.
#![tactic(auto)]

mod any_bytes;
mod big_endian;
mod codec;
mod dates;
mod decimals;
mod field;
mod integers;
mod kind;
pub mod laws;
mod lengths;
mod moments;
mod order;
mod powers;
mod texts;
mod utf8;
mod utf8_blocks;
mod value;

pub use any_bytes::take_any_bytes;
pub use codec::{decode, decode_number, encode, is_value};
pub use field::{Field, FieldList, FieldType, Storage};
pub use integers::IntCode;
pub use kind::ColumnType;
pub use lengths::{greatest_length, is_long_kind};
pub use order::{compare, compare_values};
pub use powers::ten_to;
pub use texts::trimmed;
pub use utf8::Utf8;
pub use value::{Value, ValueError};
