//! The rules by name, for callers that choose one while they run.
ghost use Rattle.std.specs.Prelude.{Some};
ghost use Rattle.sharing.specs.Named.{shares_by, most_by, name_of, ReadsName};
ghost use Rattle.sharing.specs.OfNamed.{named_laws};

use crate::fault::ShareFault;
use crate::rule::{SharingRule, in_turn, running};
use crate::weight::Weighted;
use std::fmt;
use std::str::FromStr;

/// A rule that is chosen while the program runs. It is an enum, since a `dyn SharingRule` can't have the generic `share`.
#[derive(Clone, Copy, PartialEq, Eq, Debug)]
pub enum NamedRule {
    Running,
    InTurn,
}

impl SharingRule for NamedRule {
    ghost shares = { shares_by };

    ghost greatest = { most_by };

    ghost fair = { named_laws };

    fn greatest(&self) -> usize {
        match self {
            NamedRule::Running => running::Running.greatest(),
            NamedRule::InTurn => in_turn::InTurn.greatest(),
        }
    }

    fn share<T: Weighted>(
        &self,
        total: i64,
        items: &[T],
        out: &mut [i64],
    ) -> Result<(), ShareFault> {
        match self {
            NamedRule::Running => running::Running.share(total, items, out),
            NamedRule::InTurn => in_turn::InTurn.share(total, items, out),
        }
    }
}

impl fmt::Display for NamedRule {
    ghost output = { λ rule. Some (name_of rule) };

    fn fmt<W: fmt::Write>(&self, f: &mut fmt::Formatter<W>) -> fmt::Result {
        let name = match self {
            NamedRule::Running => "running",
            NamedRule::InTurn => "in-turn",
        };
        f.write_str(name)
    }
}

/// The text is no rule's name.
#[derive(Clone, Copy, PartialEq, Eq, Debug)]
pub struct UnknownRule;

impl FromStr for NamedRule {
    type Err = UnknownRule;

    ghost from_str_gives = { ReadsName name_of };

    fn from_str(text: &str) -> Result<NamedRule, UnknownRule> {
        match text {
            "running" => Ok(NamedRule::Running),
            "in-turn" => Ok(NamedRule::InTurn),
            _ => Err(UnknownRule),
        }
    }
}
