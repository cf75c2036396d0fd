//! The command language: fields separated by single spaces, the first of them the command's name.
mod fields;

ghost use Rattle.std.specs.Prelude.{◌≡◌, ℕ, ◌<◌, ◌≤◌, List, [], length, IfOk, codes, MatchResult, slice_index_or};
ghost use Rattle.std.specs.List.{join_with_byte};
ghost use Rattle.settle.specs.Grammar.{texts, Asks, Wrong};
ghost use Rattle.settle.specs.declared.command.Command.TheVariants.{Report};
ghost use Rattle.settle.specs.declared.command.Unread.TheVariants.{NotText, Surplus, NoMemory};

use crate::command::fields::{Flag, Word, field_text, read, read_rest};
use charges::{Asked, NamedCharge};
use sharing::NamedRule;
use std::alloc::{AllocError, AllocFailed, Global};
use std::fmt;
use std::str::Utf8Error;

/// What a line asks for.
#[derive(Drop)]
pub enum Command {
    /// `share RULE ROOM TOTAL WEIGHT...`
    Share {
        rule: NamedRule,
        room: usize,
        total: i64,
        weights: Vec<u32>,
    },
    /// `block TYPE HOURS TRUED ROOM WORD...`
    Block {
        charge: NamedCharge,
        asked: Asked,
        room: usize,
        words: Vec<u32>,
    },
    /// `tally`
    Report,
}

/// A field of a command.
#[derive(Clone, Copy)]
pub enum Field {
    Command,
    Rule,
    Room,
    Total,
    Weight,
    Charge,
    Hours,
    Trued,
    Word,
}

impl Field {
    /// What the field may be; `Display` names it.
    fn expected(self) -> &'static str {
        match self {
            Field::Command => "share, block or tally",
            Field::Rule => "running or in-turn",
            Field::Room | Field::Hours => "an unsigned 64-bit number",
            Field::Total => "a signed 64-bit number",
            Field::Weight => "an unsigned 32-bit number",
            Field::Charge => "standby",
            Field::Trued => "0 or 1",
            Field::Word => "an unsigned 32-bit number, in decimal or 0x hexadecimal",
        }
    }
}

impl fmt::Display for Field {
    fn fmt<W: fmt::Write>(&self, f: &mut fmt::Formatter<W>) -> fmt::Result {
        let name = match self {
            Field::Command => "COMMAND",
            Field::Rule => "RULE",
            Field::Room => "ROOM",
            Field::Total => "TOTAL",
            Field::Weight => "WEIGHT",
            Field::Charge => "TYPE",
            Field::Hours => "HOURS",
            Field::Trued => "TRUED",
            Field::Word => "WORD",
        };
        f.write_str(name)
    }
}

/// Why a line is no command; `at` is the field's index.
#[derive(Drop)]
pub enum Unread {
    NotText,
    Missing { at: usize, field: Field },
    Malformed { at: usize, field: Field },
    Surplus { at: usize },
    NoMemory,
}

/// A field's place as a reader counts it, from 1.
fn place(at: usize) -> usize {
    at.saturating_add(1)
}

impl From<Utf8Error> for Unread {
    ghost from_gives = { λ _ r. r ≡ NotText };

    fn from(_e: Utf8Error) -> Self {
        Self::NotText
    }
}

impl From<AllocError> for Unread {
    ghost from_gives = { λ _ r. r ≡ NoMemory };

    fn from(_e: AllocError) -> Unread {
        Unread::NoMemory
    }
}

impl<T: Drop> From<AllocFailed<T>> for Unread {
    ghost from_gives = { λ _ r. r ≡ NoMemory };

    fn from(_e: AllocFailed<T>) -> Unread {
        Unread::NoMemory
    }
}

impl fmt::Display for Unread {
    fn fmt<W: fmt::Write>(&self, f: &mut fmt::Formatter<W>) -> fmt::Result {
        match self {
            Unread::NotText => f.write_str("not UTF-8 text"),
            Unread::Missing { at, field } => write!(f, "field {}: {field} is missing", place(*at)),
            Unread::Malformed { at, field } => {
                write!(
                    f,
                    "field {}: {field} is not {}",
                    place(*at),
                    field.expected()
                )
            }
            Unread::Surplus { at } => write!(f, "field {}: one field too many", place(*at)),
            Unread::NoMemory => f.write_str("no memory to read it"),
        }
    }
}

/// Reads one line, without its line end.
pub fn read_command(heap: Global, line: &str) -> Result<Command, Unread>
    ensures { MatchResult result (λ c. (fields : List (List ℕ)) × (join_with_byte 32 fields ≡ line.now) × Asks fields c) (λ u. (fields : List (List ℕ)) × (join_with_byte 32 fields ≡ line.now) × Wrong fields u) }
{
    let fields = split_fields(heap, line)?;
    read_fields(heap, fields.as_slice())
}

fn split_fields<'a>(heap: Global, line: &'a str) -> Result<Vec<&'a str>, AllocError>
    ensures { IfOk result (λ v. join_with_byte 32 (texts v.items) ≡ line.now) }
{
    line.split(' ').collect(heap)
}

/// The command that the fields are; a `tally` takes no memory beyond them, and is refused for one too many alone.
fn read_fields(heap: Global, fields: &[&str]) -> Result<Command, Unread>
    ensures is { MatchResult result (λ c. Asks (texts fields.now) c) (λ u. Wrong (texts fields.now) u) }
    ensures bare { slice_index_or (texts fields.now) 0 [] ≡ codes "tally" → MatchResult result (λ c. (c ≡ Report) × (length fields.now ≤ 1)) (λ u. (u ≡ Surplus 1) × (1 < length fields.now)) }
{
    let field = Field::Command;
    match field_text(fields, 0, field)? {
        "share" => read_share(heap, fields),
        "block" => read_block(heap, fields),
        "tally" if fields.len() > 1 => Err(Unread::Surplus { at: 1 }),
        "tally" => Ok(Command::Report),
        _ => Err(Unread::Malformed { at: 0, field }),
    }
}

fn read_share(heap: Global, fields: &[&str]) -> Result<Command, Unread>
    ensures { MatchResult result (λ c. slice_index_or (texts fields.now) 0 [] ≡ codes "share" → Asks (texts fields.now) c) (λ u. slice_index_or (texts fields.now) 0 [] ≡ codes "share" → Wrong (texts fields.now) u) }
{
    let rule = read(fields, 1, Field::Rule)?;
    let room = read(fields, 2, Field::Room)?;
    let total = read(fields, 3, Field::Total)?;
    let weights = read_rest::<u32>(heap, fields, 4, Field::Weight)?;
    Ok(Command::Share {
        rule,
        room,
        total,
        weights,
    })
}

fn read_block(heap: Global, fields: &[&str]) -> Result<Command, Unread>
    ensures { MatchResult result (λ c. slice_index_or (texts fields.now) 0 [] ≡ codes "block" → Asks (texts fields.now) c) (λ u. slice_index_or (texts fields.now) 0 [] ≡ codes "block" → Wrong (texts fields.now) u) }
{
    let charge = read(fields, 1, Field::Charge)?;
    let hours = read(fields, 2, Field::Hours)?;
    let Flag(trued_up) = read(fields, 3, Field::Trued)?;
    let room = read(fields, 4, Field::Room)?;
    let words = read_rest::<Word>(heap, fields, 5, Field::Word)?;
    Ok(Command::Block {
        charge,
        asked: Asked { hours, trued_up },
        room,
        words,
    })
}
