//! The words that a program was started with.

use command_line::read_words;
use std::env::{Env, FillError};
use std::test::Fail;

/// The words of a command line, after the program's name.
#[derive(Drop)]
struct Given<'a> {
    words: &'a [&'a [u8]],
}

impl Env for Given<'_> {
    fn arg(&self, i: usize, buf: &mut [u8]) -> Result<usize, FillError> {
        if i == 0 || i > self.words.len() {
            return Err(FillError::NotPresent);
        }
        let word = self.words[i - 1];
        if word.len() > buf.len() {
            return Err(FillError::TooLong);
        }
        buf[..word.len()].copy_from_slice(word);
        Ok(word.len())
    }

    fn var(&self, _name: &str, _buf: &mut [u8]) -> Result<usize, FillError> {
        Err(FillError::NotPresent)
    }

    fn var_at(&self, _i: usize, _buf: &mut [u8]) -> Result<usize, FillError> {
        Err(FillError::NotPresent)
    }
}

/// Short words, an empty one, one that is no UTF-8, and one that is three times as long as the first buffer.
#[test]
fn reads_every_word(rt: HostRuntime) -> Result<(), Fail> {
    let long = [b'w'; 12_288];
    let given: [&[u8]; 6] = [b"dump", &long, b"", b"\xFF", b"x", b"y"];
    let words = read_words(rt.alloc(), &Given { words: &given })?;
    for (place, word) in given.iter().enumerate() {
        assert!(rt; words.get(place) == Some(*word), "{place}");
    }
    assert!(rt; words.get(given.len()) == None);
    Ok(())
}
