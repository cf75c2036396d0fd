//! A word's parts, and heads. Bits 28 to 31 of a word are its kind and bits 0 to 27 its content; a head's content has further
//! parts.
ghost use Rattle.std.specs.Prelude.{◌≡◌, ◌<◌, length, MatchOption};
ghost use Rattle.words.specs.Heads.{head_kind, head_judged};
ghost use Rattle.words.specs.Split.{kind, content, party, day, hour_code, stray};
ghost use Rattle.words.specs.Values.{sign};

use crate::fault::WordFault;

/// Whether a value is its word's content or minus that.
#[derive(Clone, Copy, PartialEq, Eq, Debug)]
pub enum Sign {
    Plus,
    Minus,
}

/// A word of a day file: a value, or the head of the day, a load or a block.
#[derive(Clone, Copy, PartialEq, Eq, Debug)]
pub struct Word(pub u32);

impl Word {
    /// What the word is: a number, since heads may be of kinds that are not known here.
    pub fn kind(self) -> u32
        ensures { result ≡ kind self.0 }
    {
        self.0 >> 28
    }

    pub fn content(self) -> u32
        ensures { result ≡ content self.0 }
    {
        self.0 & 0xfff_ffff
    }

    /// The sign of the value that the word is by its kind: plus for 0, minus for 7, and none for the kinds of heads.
    pub fn sign(self) -> Option<Sign>
        ensures { result ≡ sign self.0 }
    {
        match self.kind() {
            0 => Some(Sign::Plus),
            7 => Some(Sign::Minus),
            _ => None,
        }
    }

    /// The scheduling entity (QSE) that a head names.
    pub fn party(self) -> u32
        ensures { result ≡ party self.0 }
    {
        self.0 & 0x3f
    }

    /// The day that a day head names.
    pub fn day(self) -> u32
        ensures { result ≡ day self.0 }
    {
        self.0 & 0xffff
    }

    /// The hours of the day less 23, in a day head.
    pub fn hour_code(self) -> u32
        ensures { result ≡ hour_code self.0 }
    {
        self.0 >> 16 & 0x3
    }

    /// Whether the head of a load or a block has a bit set between its party and its kind.
    pub fn has_stray_bits(self) -> bool
        ensures { result ≡ stray self.0 }
    {
        self.content() != self.party()
    }
}

/// The kind of the first word, if there is one.
pub fn first_kind(words: &[u32]) -> Option<u32>
    ensures { MatchOption result (length words.now ≡ 0) (λ k. (0 < length words.now) × (k ≡ head_kind words.now)) }
{
    words.first().map(|word| Word(*word).kind())
}

/// The party in the head that begins the words, or what is wrong with it; `fits` says whether its kind may stand there.
// A bool and no closure: what a kind is tested by is the caller's, and all that matters here is whether it fits.
// One match shows the four cases in their order; `ok_or` and `?` would not.
#[tactic(auto, unfolding(crate::specs::Heads::head_judged))]
pub fn judge_head(words: &[u32], fits: bool) -> Result<u32, WordFault>
    ensures { result ≡ head_judged fits words.now }
{
    match words.first().map(|head| Word(*head)) {
        None => Err(WordFault::Ended { place: 0 }),
        Some(_) if !fits => Err(WordFault::WrongKind { place: 0 }),
        Some(head) if head.has_stray_bits() => Err(WordFault::OutOfRange { place: 0 }),
        Some(head) => Ok(head.party()),
    }
}
