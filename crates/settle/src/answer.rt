//! The answers, one line a command.
ghost use Rattle.std.specs.Prelude.{◌≡◌, IfOk, string_bytes};
ghost use Rattle.settle.specs.Lines.{number_of, place_of, layer_of, reason_of, with_amounts, refused_line, tally_line, Says};

use crate::command::Unread;
use crate::tally::Tally;
use charges::ChargeFault;
use sharing::{Fault, Notice, ShareFault};
use std::alloc::{AllocError, Global};
use std::fmt::Write;

/// What the engine refused, and why.
#[derive(Clone, Copy)]
pub enum Refusal {
    Share(ShareFault),
    Charge(ChargeFault),
}

impl Fault for Refusal {
    ghost number_of = { number_of };

    ghost place_of = { place_of };

    ghost layer_of = { layer_of };

    ghost reason_of = { reason_of };

    fn notice(&self) -> Notice {
        match *self {
            Self::Share(fault) => fault.notice(),
            Self::Charge(fault) => fault.notice(),
        }
    }
}

#[derive(Drop)]
pub enum Answer {
    Shares(Vec<i64>),
    /// A block's length in words, and its amount for each hour.
    Block { length: usize, amounts: Vec<i64> },
    Report(Tally),
    Refused(Refusal),
    Error { line: u64, unread: Unread },
}

/// The line that is written, without its line end.
pub fn answer_text(heap: Global, answer: &Answer) -> Result<String, AllocError>
    ensures { IfOk result (λ line. Says answer.now (string_bytes line)) }
{
    match answer {
        Answer::Shares(shares) => amounts_text(String::from_str(heap, "ok")?, shares.as_slice()),
        Answer::Block { length, amounts } => {
            amounts_text(format!(in heap; "ok {length}")?, amounts.as_slice())
        }
        Answer::Report(tally) => tally_text(heap, *tally),
        Answer::Refused(refusal) => refused_text(heap, refusal.notice()),
        Answer::Error { line, unread } => format!(in heap; "error (line {line}, {unread})"),
    }
}

/// The line with each of the amounts behind it.
fn amounts_text(mut line: String, amounts: &[i64]) -> Result<String, AllocError>
    ensures { IfOk result (λ whole. string_bytes whole ≡ with_amounts (string_bytes line) amounts.now) }
{
    for amount in amounts {
        write!(line, " {amount}")?;
    }
    Ok(line)
}

fn refused_text(heap: Global, notice: Notice) -> Result<String, AllocError>
    ensures { IfOk result (λ line. string_bytes line ≡ refused_line notice.number notice.place notice.layer notice.reason.now) }
{
    format!(in heap;
        "refused {} {} {} ({})",
        notice.number, notice.place, notice.layer, notice.reason
    )
}

fn tally_text(heap: Global, tally: Tally) -> Result<String, AllocError>
    ensures { IfOk result (λ line. string_bytes line ≡ tally_line tally) }
{
    format!(in heap;
        "ok {} {} {} {} {} {} {} (totals shared, questions refused, lines not read, cents in the totals, cents in the shares, blocks paid, cents in their amounts)",
        tally.shared,
        tally.refused,
        tally.unread,
        tally.totals,
        tally.shares,
        tally.blocks,
        tally.amounts
    )
}
