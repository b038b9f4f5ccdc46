//! Texts of utf8mb4, which come in pieces: a character has one to four bytes.

ghost use Rattle.std.specs.Prelude.{◌≡◌, ℕ, ◌+◌, ◌<◌, ◌≤◌, ◌↔◌, ◌++◌, ◌∷◌, [], List, length, take, IsTrue, IfSome};
ghost use Rattle.column_values.specs.Characters.{IsFurther, IsStartOfThree, IsStartOfFour, IsCharacter, IsTextUpTo};
ghost use Rattle.column_values.specs.Utf8Reader.{Any, IsFed, CanFeed, IsAtEnd, CountsUpTo, WasFed, TakesText};
ghost use Rattle.column_values.specs.Utf8Reader.{new_reader};
ghost use Rattle.column_values.specs.Utf8View.{pending_bytes, state_of, Joins, StepsTo, CanStep};
ghost use Rattle.column_values.specs.Utf8View.{RoomFor, ReadsOn};

use crate::utf8_blocks::{BLOCK, front_of};
use std::marker::Model;

// The bytes of a character that aren't all of it.
#[derive(Clone, Copy, Debug)]
enum Pending {
    Nothing,
    One(u8),
    Two(u8, u8),
    Three(u8, u8, u8),
}

// What pending bytes are with one byte more.
#[derive(Clone, Copy, Debug)]
enum Joined {
    Whole,
    Front(Pending),
    Neither,
}

// What was read: a number of characters and the front of one more, or no text.
#[derive(Clone, Copy, Debug)]
enum Progress {
    Bad,
    Good { characters: u64, pending: Pending },
}

/// How far a text of utf8mb4 was read, which comes in pieces.
#[derive(Debug, Drop)]
pub struct Utf8 {
    limit: Option<u32>,
    progress: Progress,
}

impl Model for Utf8 {
    ghost use Rattle.column_values.specs.Utf8Reader.{Reader};
    ghost use Rattle.column_values.specs.Utf8View.{reader_of};

    ghost Value = { Reader };

    ghost view = { λ text. reader_of text.limit text.progress };
}

fn is_further(byte: u8) -> bool
    ensures { IsTrue result ↔ IsFurther byte }
{
    byte >= 0x80 && byte <= 0xBF
}

fn is_start_of_three(a: u8, b: u8) -> bool
    ensures { IsTrue result ↔ IsStartOfThree a b }
{
    if a == 0xE0 {
        b >= 0xA0 && b <= 0xBF
    } else {
        a >= 0xE1 && a <= 0xEF && is_further(b)
    }
}

fn is_start_of_four(a: u8, b: u8) -> bool
    ensures { IsTrue result ↔ IsStartOfFour a b }
{
    if a == 0xF0 {
        b >= 0x90 && b <= 0xBF
    } else if a == 0xF4 {
        b >= 0x80 && b <= 0x8F
    } else {
        a >= 0xF1 && a <= 0xF3 && is_further(b)
    }
}

fn join_none(a: u8) -> Joined
    ensures { Joins (a ∷ []) result }
{
    if a <= 0x7F {
        Joined::Whole
    } else if a >= 0xC2 && a <= 0xF4 {
        Joined::Front(Pending::One(a))
    } else {
        Joined::Neither
    }
}

fn join_one(a: u8, b: u8) -> Joined
    ensures { Joins (a ∷ b ∷ []) result }
{
    if a >= 0xC2 && a <= 0xDF && is_further(b) {
        Joined::Whole
    } else if is_start_of_three(a, b) || is_start_of_four(a, b) {
        Joined::Front(Pending::Two(a, b))
    } else {
        Joined::Neither
    }
}

fn join_two(a: u8, b: u8, c: u8) -> Joined
    ensures { Joins (a ∷ b ∷ c ∷ []) result }
{
    if !is_further(c) {
        Joined::Neither
    } else if is_start_of_three(a, b) {
        Joined::Whole
    } else if is_start_of_four(a, b) {
        Joined::Front(Pending::Three(a, b, c))
    } else {
        Joined::Neither
    }
}

fn join_three(a: u8, b: u8, c: u8, d: u8) -> Joined
    ensures { Joins (a ∷ b ∷ c ∷ d ∷ []) result }
{
    if is_start_of_four(a, b) && is_further(c) && is_further(d) {
        Joined::Whole
    } else {
        Joined::Neither
    }
}

impl Pending {
    fn is_nothing(self) -> bool
        ensures { IsTrue result ↔ (pending_bytes self ≡ []) }
    {
        matches!(self, Pending::Nothing)
    }

    fn with(self, byte: u8) -> Joined
        ensures { Joins (pending_bytes self ++ byte ∷ []) result }
    {
        match self {
            Pending::Nothing => join_none(byte),
            Pending::One(a) => join_one(a, byte),
            Pending::Two(a, b) => join_two(a, b, byte),
            Pending::Three(a, b, c) => join_three(a, b, c, byte),
        }
    }
}

impl Progress {
    fn with(self, byte: u8) -> Progress
        requires { CanStep (state_of self) }
        ensures { StepsTo (state_of self) byte (state_of result) }
    {
        let Progress::Good {
            characters,
            pending,
        } = self
        else {
            return Progress::Bad;
        };
        match pending.with(byte) {
            Joined::Whole => Progress::Good {
                characters: characters + 1,
                pending: Pending::Nothing,
            },
            Joined::Front(pending) => Progress::Good {
                characters,
                pending,
            },
            Joined::Neither => Progress::Bad,
        }
    }

    /// Reads the bytes one after another.
    fn with_bytes(self, bytes: &[u8]) -> Progress
        requires { RoomFor (state_of self) (length bytes.now) }
        ensures { ReadsOn (state_of self) (state_of result) bytes.now }
    {
        let mut progress = self;
        for byte in bytes {
            progress = progress.with(*byte);
        }
        progress
    }

    /// Reads the characters at the front of a block, where no byte is pending and they are a text; answers how many
    /// bytes they have.
    fn with_front(self, block: &[u8]) -> Option<(usize, Progress)>
        requires size { length block.now ≡ 195 }
        requires room { RoomFor (state_of self) 195 }
        ensures { IfSome result (λ read. (1 ≤ read.0) × (read.0 ≤ 195)
            × ReadsOn (state_of self) (state_of read.1) (take read.0 block.now)) }
    {
        let Progress::Good {
            characters,
            pending,
        } = self
        else {
            return None;
        };
        if !pending.is_nothing() {
            return None;
        }
        let (size, count) = front_of(block)?;
        let progress = Progress::Good {
            characters: characters + count,
            pending: Pending::Nothing,
        };
        Some((size, progress))
    }

    /// Reads the characters at the front of a block, or else its first byte; answers how many bytes it read.
    fn with_some(self, block: &[u8]) -> (usize, Progress)
        requires size { length block.now ≡ 195 }
        requires room { RoomFor (state_of self) 195 }
        ensures some { 1 ≤ result.0 }
        ensures within { result.0 ≤ 195 }
        ensures reads { ReadsOn (state_of self) (state_of result.1) (take result.0 block.now) }
    {
        match self.with_front(block) {
            Some(read) => read,
            None => (1, self.with(block[0])),
        }
    }

    /// Reads the bytes in blocks, as far as there are whole ones; answers how many bytes it read.
    fn with_blocks(self, bytes: &[u8]) -> (usize, Progress)
        requires { RoomFor (state_of self) (length bytes.now) }
        ensures within { result.0 ≤ length bytes.now }
        ensures reads { ReadsOn (state_of self) (state_of result.1) (take result.0 bytes.now) }
    {
        let mut progress = self;
        let mut at = 0;
        while bytes.len() - at >= BLOCK {
            let (_, rest) = bytes.split_at(at);
            let (block, _) = rest.split_at(BLOCK);
            let (size, next) = progress.with_some(block);
            progress = next;
            at += size;
        }
        (at, progress)
    }
}

impl Utf8 {
    /// Takes any bytes.
    pub fn any() -> Utf8
        ensures is { result ≡ Any }
        ensures fresh { WasFed result [] }
        ensures takes { (text : List ℕ) → TakesText result text }
    {
        Utf8 {
            limit: None,
            progress: Progress::Bad,
        }
    }

    /// Takes texts of at most so many characters; nothing was read yet.
    pub fn limit(characters: u32) -> Utf8
        ensures is { result ≡ new_reader characters }
        ensures fresh { WasFed result [] }
        ensures takes { (text : List ℕ) → TakesText result text ↔ IsTextUpTo characters text }
    {
        Utf8 {
            limit: Some(characters),
            progress: Progress::Good {
                characters: 0,
                pending: Pending::Nothing,
            },
        }
    }

    /// Reads the next piece of the text.
    pub fn feed(&mut self, bytes: &[u8])
        requires { CanFeed self.old (length bytes.now) }
        ensures feeds { IsFed self.old self.new bytes.now }
        ensures counts { (most : ℕ) → CountsUpTo most self.old → CountsUpTo (most + length bytes.now) self.new }
    {
        let Some(_) = self.limit else {
            return;
        };
        let (at, progress) = self.progress.with_blocks(bytes);
        let (_, rest) = bytes.split_at(at);
        self.progress = progress.with_bytes(rest);
    }

    fn is_at_end(&self) -> bool
        ensures { IsTrue result ↔ IsAtEnd self.now }
    {
        let Some(limit) = self.limit else {
            return true;
        };
        match self.progress {
            Progress::Bad => false,
            Progress::Good {
                characters,
                pending,
            } => pending.is_nothing() && characters <= u64::from(limit),
        }
    }

    /// Whether what was read is a text, of at most as many characters as the limit.
    pub fn is_text(&self) -> bool
        ensures end { IsTrue result ↔ IsAtEnd self.now }
        ensures text { (fed : List ℕ) → WasFed self.now fed → IsTrue result ↔ TakesText self.now fed }
    {
        self.is_at_end()
    }
}

/// Whether the bytes are a text of at most `n` characters.
pub(crate) fn is_text(n: u32, bytes: &[u8]) -> bool
    requires { length bytes.now ≤ 8589934591 }
    ensures { IsTrue result ↔ IsTextUpTo n bytes.now }
{
    let mut text = Utf8::limit(n);
    text.feed(bytes);
    text.is_text()
}
