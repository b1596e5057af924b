// A line that is read word by word.
ghost use Rattle.std.specs.Prelude.{◌≡◌, ◌≤◌, ◌+◌, ◌∷◌, [], ℕ, false, length, MatchOption, IfSome};
ghost use Rattle.std.specs.List.{prefix_len};
ghost use Rattle.xp_text.specs.Lines.{is_blank, is_solid, words_from, StandsFirst};

use std::marker::Model;

/// The byte that begins a comment where a word could begin.
pub const COMMENT: u8 = b'#';

/// The part of a line that isn't read yet. Columns count from 1. Contracts see its words, the
/// column one past the line's last byte, and the column of the last word that was read, or 1
/// before the first.
#[derive(Drop)]
pub struct Line<'a> {
    rest: &'a [u8],
    column: u64,
    last: u64,
}

impl<'a> Model for Line<'a> {
    ghost use Rattle.std.specs.Prelude.{◌≤◌, ◌+◌, ◌^◌, ◌<◌, length, false};
    ghost use Rattle.xp_text.specs.Lines as lines;

    ghost Value = { lines.Line };

    ghost view = { λ l. record {
      words = lines.words_from false l.column l.rest.now;
      end = l.column + length l.rest.now;
      last = l.last;
    } };

    ghost invariant = { λ l. l.column + length l.rest.now < 2 ^ 64 };
}

impl<'a> Line<'a> {
    ghost use Rattle.std.specs.Prelude.{◌≡◌, ◌∷◌, [], MatchOption, MatchBool};
    ghost use Rattle.xp_text.specs.Lines.{line_of, accepted, first_bytes};

    pub fn new(bytes: &'a [u8]) -> Line<'a>
        ensures { result ≡ line_of bytes.now }
    {
        Line {
            rest: bytes,
            column: 1,
            last: 1,
        }
    }

    /// Reads the next word. None: no word is left, and the line stays as it is.
    pub fn next_word(&mut self) -> Option<&'a [u8]>
        ensures { MatchOption result
            ((self.old.words ≡ []) × (self.new ≡ self.old))
            (λ word.
            (self.old.words ≡ record { column = self.new.last; bytes = word.now } ∷ self.new.words)
            × (self.new.end ≡ self.old.end)) }
    {
        let (blanks, word, rest) = first_word(self.rest)?;
        self.last = self.column + blanks as u64;
        self.column = self.last + word.len() as u64;
        self.rest = rest;
        Some(word)
    }

    /// The next word, which isn't read. None: no word is left.
    pub fn peek(&self) -> Option<&'a [u8]>
        ensures { MatchOption result (first_bytes self.now.words ≡ None)
            (λ word. first_bytes self.now.words ≡ Some word.now) }
    {
        let (_, word, _) = first_word(self.rest)?;
        Some(word)
    }

    /// Reads the next word where it is this one, and tells whether it is. Else the line stays as
    /// it is.
    #[tactic(auto, unfolding(crate::specs::Lines::accepted))]
    pub fn accept(&mut self, word: &[u8]) -> bool
        ensures { MatchBool result (accepted word.now self.old ≡ Some self.new)
            ((accepted word.now self.old ≡ None) × (self.new ≡ self.old)) }
    {
        match first_word(self.rest) {
            Some((blanks, next, rest)) if next == word => {
                self.last = self.column + blanks as u64;
                self.column = self.last + next.len() as u64;
                self.rest = rest;
                true
            }
            _ => false,
        }
    }

    /// The column one past the line's last byte.
    pub fn end(&self) -> u64
        ensures { result ≡ self.now.end }
    {
        self.column + self.rest.len() as u64
    }

    /// The column of the last word that was read.
    pub fn last(&self) -> u64
        ensures { result ≡ self.now.last }
    {
        self.last
    }
}

/// The number of blanks before the first word, the word, and the bytes after it.
fn first_word(bytes: &[u8]) -> Option<(usize, &[u8], &[u8])>
    ensures word { MatchOption result ((k : ℕ) → words_from false k bytes.now ≡ [])
        (λ found. StandsFirst bytes.now found.0 found.1.now found.2.now) }
    ensures len { IfSome result
        (λ found. found.0 + length found.1.now + length found.2.now ≡ length bytes.now) }
{
    let blanks = blank_len(bytes);
    let (_, from) = bytes.split_at(blanks);
    if from.is_empty() {
        return None;
    }
    if from[0] == COMMENT {
        return None;
    }
    let (word, rest) = from.split_at(word_len(from));
    Some((blanks, word, rest))
}

fn is_blank(byte: u8) -> bool
    ensures { result ≡ is_blank byte }
{
    byte == b' ' || byte == b'\t' || byte == b'\r'
}

/// The number of blanks that the bytes begin with.
fn blank_len(bytes: &[u8]) -> usize
    ensures len { result ≡ prefix_len is_blank bytes.now }
    ensures within { result ≤ length bytes.now }
{
    for (place, byte) in bytes.iter().enumerate() {
        if !is_blank(*byte) {
            return place;
        }
    }
    bytes.len()
}

/// The number of bytes before the first blank.
fn word_len(bytes: &[u8]) -> usize
    ensures len { result ≡ prefix_len is_solid bytes.now }
    ensures within { result ≤ length bytes.now }
{
    for (place, byte) in bytes.iter().enumerate() {
        if is_blank(*byte) {
            return place;
        }
    }
    bytes.len()
}
