//! One command at a time: read it, do it, say what came of it.
ghost use Rattle.std.specs.Prelude.{◌≡◌, IfOk, Ok, MatchResult};
ghost use Rattle.settle.specs.Grammar.{blank, skipped, without_last, content, LineAsks, LineWrong};
ghost use Rattle.settle.specs.Reply.{reply, paid_of, block_reply, RefusesShare, RefusesBlock, Refuses, NotDone, Done, Answered};
ghost use Rattle.settle.specs.declared.answer.Refusal.TheVariants.{Share as ShareOf, Charge as ChargeOf};
ghost use Rattle.settle.specs.declared.desk.Undone.TheVariants.{Refused as RefusedFor, NoMemory};

use crate::answer::{Answer, Refusal};
use crate::command::{Command, Unread, read_command};
use crate::tally::Tally;
use charges::block::MOST_HOURS;
use charges::{Asked, ChargeFault, NamedCharge, charge_part};
use sharing::{NamedRule, ShareFault, apportion};
use std::alloc::{AllocError, Global};
use std::str::from_utf8;

/// The answer to one line, with its line end or without; none to a blank line and a comment.
pub fn answer_line(
    heap: Global,
    tally: &mut Tally,
    number: u64,
    bytes: &[u8],
) -> Result<Option<Answer>, AllocError>
    ensures { IfOk result (λ answer. Answered number bytes.now tally.old answer tally.new) }
{
    if is_skipped(bytes) {
        return Ok(None);
    }
    // A match and no `?`: either end is counted.
    let answer = match read_line(heap, bytes) {
        Ok(command) => carry_out(heap, tally, command)?,
        Err(unread) => {
            tally.note_unread();
            Answer::Error {
                line: number,
                unread,
            }
        }
    };
    Ok(Some(answer))
}

/// A comment or a blank line.
fn is_skipped(line: &[u8]) -> bool
    ensures { result ≡ skipped line.now }
{
    line.starts_with(b"#") || is_blank(line)
}

fn is_blank(line: &[u8]) -> bool
    ensures { result ≡ blank line.now }
{
    line.trim_ascii_start().is_empty()
}

/// What a line asks for, or why it is no command.
fn read_line(heap: Global, line: &[u8]) -> Result<Command, Unread>
    ensures { MatchResult result (λ c. LineAsks line.now c) (λ u. LineWrong line.now u) }
{
    read_command(heap, from_utf8(content(line))?)
}

/// A line without its end: a line feed, and a carriage return before it.
fn content(line: &[u8]) -> &[u8]
    ensures { result.now ≡ content line.now }
{
    without_last(b'\r', without_last(b'\n', line))
}

fn without_last(end: u8, line: &[u8]) -> &[u8]
    ensures { result.now ≡ without_last end line.now }
{
    line.strip_suffix(&[end]).unwrap_or(line)
}

/// Why a command is not done.
#[derive(Clone, Copy)]
pub enum Undone {
    Refused(Refusal),
    NoMemory(AllocError),
}

impl From<ShareFault> for Undone {
    ghost from_gives = { λ f u. u ≡ RefusedFor (ShareOf f) };

    fn from(fault: ShareFault) -> Undone {
        Undone::Refused(Refusal::Share(fault))
    }
}

impl From<ChargeFault> for Undone {
    ghost from_gives = { λ f u. u ≡ RefusedFor (ChargeOf f) };

    fn from(fault: ChargeFault) -> Undone {
        Undone::Refused(Refusal::Charge(fault))
    }
}

impl From<AllocError> for Undone {
    ghost from_gives = { λ e u. u ≡ NoMemory e };

    fn from(error: AllocError) -> Undone {
        Undone::NoMemory(error)
    }
}

/// Does what the command asks for, or answers why the engine refuses it; counts either.
fn carry_out(heap: Global, tally: &mut Tally, command: Command) -> Result<Answer, AllocError>
    ensures { IfOk result (λ a. Done tally.old command a tally.new) }
{
    // One match over the three ends; a closure for `or_else` would take the tally along.
    match perform(heap, tally, command) {
        Ok(answer) => Ok(answer),
        Err(Undone::Refused(refusal)) => {
            tally.note_refusal();
            Ok(Answer::Refused(refusal))
        }
        Err(Undone::NoMemory(error)) => Err(error),
    }
}

/// Does and counts what the command asks for.
// A command's fields are taken apart here once; a struct for each command would be taken apart by the function that answers it.
fn perform(heap: Global, tally: &mut Tally, command: Command) -> Result<Answer, Undone>
    ensures { MatchResult result (λ a. Done tally.old command a tally.new) (λ u. NotDone (Refuses command) u × (tally.new ≡ tally.old)) }
{
    match command {
        Command::Share {
            rule,
            room,
            total,
            weights,
        } => {
            let shares = share(heap, rule, room, total, weights.as_slice())?;
            tally.note_shares(total, shares.as_slice());
            Ok(Answer::Shares(shares))
        }
        Command::Block {
            charge,
            asked,
            room,
            words,
        } => {
            let (length, amounts) = charge_block(heap, charge, asked, room, words.as_slice())?;
            tally.note_block(amounts.as_slice());
            Ok(Answer::Block { length, amounts })
        }
        Command::Report => Ok(Answer::Report(*tally)),
    }
}

/// The shares that the rule gives, lent `room` places for them.
fn share(
    heap: Global,
    rule: NamedRule,
    room: usize,
    total: i64,
    weights: &[u32],
) -> Result<Vec<i64>, Undone>
    ensures { MatchResult result (λ v. Ok v.items ≡ reply rule room total weights.now) (NotDone (RefusesShare rule room total weights.now)) }
{
    // Places past the shares are left as they were, so no more are lent than there are weights.
    let places = room.min(weights.len());
    let mut shares = vec![in heap; 0; places]?;
    apportion(&rule, total, weights, shares.as_mut_slice())?;
    Ok(shares)
}

/// The length and the amounts of the block that begins the words, the type being lent `room` places for its hours.
fn charge_block(
    heap: Global,
    charge: NamedCharge,
    asked: Asked,
    room: usize,
    words: &[u32],
) -> Result<(usize, Vec<i64>), Undone>
    ensures { MatchResult result (λ b. Ok (paid_of b.0 b.1.items) ≡ block_reply charge asked room words.now) (NotDone (RefusesBlock charge asked room words.now)) }
{
    // Places past the hours are left as they were, so no more are lent than the longest day has.
    let places = room.min(MOST_HOURS);
    let mut amounts = vec![in heap; 0; places]?;
    let length = charge_part(&charge, words, asked, amounts.as_mut_slice(), 0)?;
    amounts.truncate(asked.hours);
    Ok((length, amounts))
}
