// A stored list is words of 16 hexadecimal digits, each with one byte behind it. A record is what is left of the list, and its first word
// says after how many words the next one begins. What lies past the list's end reads as 0, so nothing is asked of a list.
ghost use Rattle.std.specs.Prelude.{◌≡◌, ◌<◌, ◌≤◌, IfOk, length, vec_len};
ghost use Rattle.std.specs.Iterator.{at_most};

use std::alloc::{AllocError, Global};
use std::io::Read;
use std::rt::Files;
use std::{array, fs, io};

// So many bytes of a file are read, so that one without an end ends.
const LONGEST: usize = 1048576;

// The room has one byte more, so that the last read, of nothing, finds it not full and asks for no more.
pub fn read<R: Files + AllocGlobal>(rt: &R, name: &str) -> io::Result<Vec<u8>> {
    let mut text = Vec::with_capacity(rt.alloc(), LONGEST + 1)?;
    fs::open(rt, name)?
        .take(LONGEST as u64)
        .read_to_end(&mut text)?;
    Ok(text)
}

// Any other byte counts as 0.
fn digit(byte: u8) -> u64
    ensures { result < 16 }
{
    match byte {
        b'0'..=b'9' => u64::from(byte - b'0'),
        b'A'..=b'F' => u64::from(byte - b'A' + 10),
        _ => 0,
    }
}

pub fn number(word: &[u8; 17]) -> u64 {
    word.iter()
        .take(16)
        .fold(0, |high, byte| high << 4 | digit(*byte))
}

// A word that stands for no kind and no figure. Where it asks for a call all the same, that is the last one.
#[derive(Clone, Copy, Debug, PartialEq, Eq)]
pub struct UnknownWord(pub u64);

// What a word stands for.
pub trait Word: Copy {
    fn from_word(word: u64) -> Self;

    fn to_word(self) -> u64;

    // Whether a word of an expected list stands for this.
    fn is_word(self, word: u64) -> bool {
        self.to_word() == word
    }
}

impl Word for usize {
    fn from_word(word: u64) -> Self {
        word as usize
    }

    fn to_word(self) -> u64 {
        self as u64
    }
}

// Of a narrower type the low bits, by a mask: an `as` is to lose none.
impl Word for u32 {
    fn from_word(word: u64) -> Self {
        (word & 0xffff_ffff) as u32
    }

    fn to_word(self) -> u64 {
        u64::from(self)
    }
}

impl Word for u8 {
    fn from_word(word: u64) -> Self {
        (word & 0xff) as u8
    }

    fn to_word(self) -> u64 {
        u64::from(self)
    }

    // In a list the low bits of a word are a byte, given or expected.
    fn is_word(self, word: u64) -> bool {
        self == Self::from_word(word)
    }
}

// An expected NaN is 7FF8000000000000, and every NaN reads so.
impl Word for f64 {
    fn from_word(word: u64) -> Self {
        float::from_bits(word)
    }

    fn to_word(self) -> u64 {
        float::to_bits(self)
    }
}

#[derive(Clone, Copy)]
pub struct Record<'a> {
    alloc: Global,
    words: &'a [[u8; 17]],
}

impl Record<'_> {
    pub fn word(self, k: usize) -> u64 {
        self.words.get(k).map_or(0, number)
    }

    pub fn flag(self, k: usize) -> bool {
        self.word(k) == 1
    }

    pub fn get<T: Word>(self, k: usize) -> T {
        T::from_word(self.word(k))
    }

    pub fn is<T: Word>(self, k: usize, value: T) -> bool {
        value.to_word() == self.word(k)
    }

    // The number that stands at word k, at most 1024, so that no list that is lent has more places or stands further on.
    pub fn count(self, k: usize) -> usize
        ensures { result ≤ 1024 }
    {
        self.get::<usize>(k).min(1024)
    }

    // What the N words from word k on stand for.
    pub fn array<T: Word, const N: usize>(self, k: usize) -> [T; N] {
        array::from_fn(|i| self.get(k.saturating_add(i)))
    }

    // What the n words from word k on stand for.
    pub fn values<T: Word>(self, k: usize, n: usize) -> Result<Vec<T>, AllocError>
        ensures { IfOk result (λ values. vec_len values ≡ n) }
    {
        (0..n)
            .map(|i| self.get(k.saturating_add(i)))
            .collect(self.alloc)
    }

    // Whether the words from word k on stand for these values.
    pub fn are<T: Word>(self, k: usize, values: &[T]) -> bool {
        values
            .iter()
            .enumerate()
            .all(|(i, value)| value.is_word(self.word(k.saturating_add(i))))
    }

    // The list whose place and length stand at word k and behind it.
    pub fn list<T: Word>(self, k: usize) -> Result<Vec<T>, AllocError>
        ensures { IfOk result (λ values. vec_len values ≤ 1024) }
    {
        self.values(self.count(k), self.count(k.saturating_add(1)))
    }

    // Whether the values are those of the list whose place stands at word k.
    pub fn is_list<T: Word>(self, k: usize, values: &[T]) -> bool {
        self.are(self.count(k), values)
    }

    // The bytes whose place and count stand there, eight a word, lowest first.
    pub fn packed(self, k: usize) -> Result<Vec<u8>, AllocError>
        ensures { IfOk result (λ bytes. vec_len bytes ≤ 1024) }
    {
        let from = self.count(k);
        let n = self.count(k.saturating_add(1));
        (from..from + n.div_ceil(8))
            .flat_map(|i| self.word(i).to_le_bytes())
            .take(n)
            .collect(self.alloc)
    }
}

// The records of a list, up to one of no words: none begins behind it, and it would agree, for a call on nothing answers 0.
#[derive(Drop)]
pub struct Records<'a> {
    pub alloc: Global,
    pub words: &'a [[u8; 17]],
}

impl<'a> Iterator for Records<'a> {
    type Item = Record<'a>;

    ghost remaining = { λ s. at_most (length s.words.now) };

    fn next(&mut self) -> Option<Record<'a>> {
        let words = self.words;
        let n = number(words.first()?) as usize;
        if n == 0 {
            return None;
        }
        self.words = words.get(n..).unwrap_or(&[]);
        Some(Record {
            alloc: self.alloc,
            words,
        })
    }
}
