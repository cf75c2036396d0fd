//! A line's fields: their texts, and the values that these write.
ghost use Rattle.std.specs.Prelude.{◌≡◌, ℕ, ◌<◌, ◌≤◌, List, [], length, Ok, Err, MatchResult, slice_index_or};
ghost use Rattle.settle.specs.Grammar.{texts, ReadsFlag, ReadsWord, Unsuited, FieldWrong, ReadAs, EachField, RestWrong};

use crate::command::{Field, Unread};
use std::alloc::Global;
use std::num::ParseIntError;
use std::str::FromStr;

/// What a field TRUED holds.
#[derive(Clone, Copy)]
pub struct Flag(pub bool);

/// The text is neither 0 nor 1.
#[derive(Clone, Copy)]
pub struct NoFlag;

impl FromStr for Flag {
    type Err = NoFlag;

    ghost from_str_gives = { ReadsFlag };

    fn from_str(text: &str) -> Result<Flag, NoFlag> {
        match text {
            "0" => Ok(Flag(false)),
            "1" => Ok(Flag(true)),
            _ => Err(NoFlag),
        }
    }
}

/// What a field WORD holds: a number of 32 bits, in decimal or, behind 0x, in hexadecimal.
#[derive(Clone, Copy)]
pub struct Word(pub u32);

impl FromStr for Word {
    type Err = ParseIntError;

    ghost from_str_gives = { ReadsWord };

    fn from_str(text: &str) -> Result<Word, ParseIntError> {
        let word = match text.strip_prefix("0x") {
            Some(digits) => u32::from_str_radix(digits, 16)?,
            None => text.parse()?,
        };
        Ok(Word(word))
    }
}

impl From<Word> for u32 {
    ghost from_gives = { λ word n. n ≡ word.0 };

    fn from(word: Word) -> u32 {
        word.0
    }
}

/// The text of the field at a place.
// Fields, place and field stay apart: the grammar numbers the fields of each command, and so does who reads it; a reader that counts
// along, or a pair of place and field, would only be taken apart here.
pub(crate) fn field_text<'a>(fields: &[&'a str], at: usize, field: Field) -> Result<&'a str, Unread>
    ensures { MatchResult result (λ text. (at < length fields.now) × (text.now ≡ slice_index_or (texts fields.now) at [])) (λ u. FieldWrong (texts fields.now) at field u) }
{
    fields.get(at).copied().ok_or(Unread::Missing { at, field })
}

/// The value that the field at a place writes.
pub(crate) fn read<N: FromStr>(fields: &[&str], at: usize, field: Field) -> Result<N, Unread>
where
    N::Err: Drop,
    requires { (text : List ℕ) (e : N.Err) → N.FromStr.from_str_gives text (Err e) → Unsuited field text }
    ensures { MatchResult result (λ n. (at < length fields.now) × N.FromStr.from_str_gives (slice_index_or (texts fields.now) at []) (Ok n)) (λ u. FieldWrong (texts fields.now) at field u) }
{
    let text = field_text(fields, at, field)?;
    text.parse::<N>()
        .map_err(|_| Unread::Malformed { at, field })
}

/// The numbers that the fields write from a place on.
pub(crate) fn read_rest<N: FromStr + Into<u32>>(
    heap: Global,
    fields: &[&str],
    first: usize,
    field: Field,
) -> Result<Vec<u32>, Unread>
where
    N::Err: Drop,
    requires unsuited { (text : List ℕ) (e : N.Err) → N.FromStr.from_str_gives text (Err e) → Unsuited field text }
    requires there { first ≤ length fields.now }
    ensures { MatchResult result (λ v. EachField (ReadAs N.FromStr.from_str_gives N.Into.converts) first (texts fields.now) v.items) (λ u. RestWrong first (texts fields.now) field u) }
{
    // `map` and `try_collect` were tried: their contracts tell of a field's place only through runs of the iterator.
    let mut numbers = Vec::new(heap);
    for at in first..fields.len() {
        let number: N = read(fields, at, field)?;
        numbers.push(number.into())?;
    }
    Ok(numbers)
}
