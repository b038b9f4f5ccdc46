//! Decimals: the digits in groups of nine, counted from the point, each group a number of its own; all bits
//! turned where the number is negative, and then the top bit (decimal).

ghost use Rattle.std.specs.Prelude.{◌≡◌, ◌≢◌, ℕ, ◌+◌, ◌-◌, ◌*◌, ◌/◌, ◌<◌, ◌≤◌, ◌^◌, min, length, slice_index, List};
ghost use Rattle.std.specs.Prelude.{IfOk, if◌then◌else◌};
ghost use Rattle.page_source.specs.Pages.{AreBytes};
ghost use Rattle.column_values.specs.declared.kind.ColumnType.{ColumnType};
ghost use Rattle.column_values.specs.Types.{IsColumnType};
ghost use Rattle.column_values.specs.Lengths.{decimal_groups, decimal_length};
ghost use Rattle.column_values.specs.Decimals.{grouped, complemented, with_top_turned, FindsUnits, FindsDecimal};
ghost use Rattle.column_values.specs.Spell.{Finds, Encodes};

use crate::big_endian::{number_at, push_number};
use crate::lengths::{decimal_length, group_length};
use crate::powers::ten_to;
use crate::texts::list_of;
use crate::value::{Value, ValueError};
use page_source::{ByteList, NoMemory};
use std::alloc::Global;

// The greatest length of a decimal.
const MOST_BYTES: usize = 18;

fn group_count(p: u8, s: u8) -> usize
    requires { IsColumnType (ColumnType.Decimal p s) }
    ensures { result ≡ length (decimal_groups p s) }
{
    2 + usize::from(p - s) / 9 + usize::from(s) / 9
}

// How many digits a group has.
fn digits_in(p: u8, s: u8, group: usize) -> usize
    requires known { IsColumnType (ColumnType.Decimal p s) }
    requires inside { group < length (decimal_groups p s) }
    ensures value { result ≡ slice_index (decimal_groups p s) group }
    ensures few { result ≤ 9 }
{
    if group == 0 {
        usize::from(p - s) % 9
    } else if group + 1 == group_count(p, s) {
        usize::from(s) % 9
    } else {
        9
    }
}

// The number whose digits the groups are.
fn units(p: u8, s: u8, plain: &[u8]) -> Option<u128>
    requires known { IsColumnType (ColumnType.Decimal p s) }
    requires size { length plain.now ≡ decimal_length p s }
    ensures { FindsUnits p s plain.now result }
{
    let mut units = 0;
    let mut at = 0;
    for group in 0..group_count(p, s) {
        let digits = digits_in(p, s, group);
        let width = group_length(digits);
        let number = u128::from(number_at(plain, at, width));
        if number >= ten_to(digits) {
            return None;
        }
        units = units * ten_to(digits) + number;
        at += width;
    }
    Some(units)
}

// The groups of a number.
fn plain_bytes(alloc: Global, p: u8, s: u8, units: u128) -> Result<ByteList, NoMemory>
    requires known { IsColumnType (ColumnType.Decimal p s) }
    requires few { units < 10 ^ p }
    ensures { IfOk result (λ list. list ≡ grouped (decimal_groups p s) units) }
{
    let mut list = ByteList::new(alloc);
    let mut rest = units;
    let mut left = usize::from(p);
    for group in 0..group_count(p, s) {
        let digits = digits_in(p, s, group);
        left -= digits;
        let power = ten_to(left);
        push_number(&mut list, group_length(digits), (rest / power) as u64)?;
        rest %= power;
    }
    Ok(list)
}

fn complement(bytes: &mut [u8])
    ensures { bytes.new ≡ complemented bytes.old }
{
    for byte in bytes.iter_mut() {
        *byte = !*byte;
    }
}

fn turn_top(bytes: &mut [u8])
    ensures { bytes.new ≡ with_top_turned bytes.old }
{
    if !bytes.is_empty() {
        bytes[0] ^= 0x80;
    }
}

fn size_of(p: u8, s: u8) -> usize
    requires { IsColumnType (ColumnType.Decimal p s) }
    ensures value { result ≡ decimal_length p s }
    ensures some { 1 ≤ result }
    ensures most { result ≤ 18 }
{
    decimal_length(p, s)
}

// The number that the bytes spell, which are turned on the way.
fn signed_units(p: u8, s: u8, bytes: &mut [u8]) -> Option<i128>
    requires known { IsColumnType (ColumnType.Decimal p s) }
    requires size { length bytes.old ≡ decimal_length p s }
    requires some { 1 ≤ length bytes.old }
    requires are_bytes { AreBytes bytes.old }
    ensures { FindsDecimal p s bytes.old result }
{
    turn_top(bytes);
    if bytes[0] < 0x80 {
        return Some(units(p, s, bytes)? as i128);
    }
    complement(bytes);
    let units = units(p, s, bytes)?;
    if units == 0 {
        return None;
    }
    Some(-(units as i128))
}

/// The decimal that the bytes spell.
pub(crate) fn decimal(p: u8, s: u8, bytes: &[u8]) -> Option<Value>
    requires { IsColumnType (ColumnType.Decimal p s) }
    ensures { Finds (ColumnType.Decimal p s) bytes.now result }
{
    let size = size_of(p, s);
    if bytes.len() != size {
        return None;
    }
    let mut room = [0; MOST_BYTES];
    let turned = &mut room[..size];
    turned.copy_from_slice(bytes);
    Some(Value::Decimal(signed_units(p, s, turned)?))
}

// The bytes with the sign put to them.
fn signed_bytes(alloc: Global, is_negative: bool, plain: &[u8]) -> Result<ByteList, NoMemory>
    requires { length plain.now ≤ 18 }
    ensures same { IfOk result (λ list.
        list ≡ with_top_turned (if is_negative then complemented plain.now else plain.now)) }
    ensures are_bytes { IfOk result AreBytes }
{
    let mut room = [0; MOST_BYTES];
    let bytes = &mut room[..plain.len()];
    bytes.copy_from_slice(plain);
    if is_negative {
        complement(bytes);
    }
    turn_top(bytes);
    list_of(alloc, bytes)
}

/// The bytes of a decimal.
pub(crate) fn decimal_bytes(
    alloc: Global,
    p: u8,
    s: u8,
    value: &Value,
) -> Result<ByteList, ValueError>
    requires { IsColumnType (ColumnType.Decimal p s) }
    ensures { Encodes (ColumnType.Decimal p s) value.now result }
{
    let Value::Decimal(units) = *value else {
        return Err(ValueError::BadValue);
    };
    if units.unsigned_abs() >= ten_to(usize::from(p)) {
        return Err(ValueError::BadValue);
    }
    let plain = plain_bytes(alloc, p, s, units.unsigned_abs())?;
    Ok(signed_bytes(alloc, units < 0, plain.bytes())?)
}
