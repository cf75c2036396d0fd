//! Why a question is refused, and the engine's layers that refusals belong to.
ghost use Rattle.std.specs.Prelude.{◌≡◌, ℕ, List, Some};
ghost use Rattle.sharing.specs.declared.fault.Layer.{Layer};
ghost use Rattle.sharing.specs.Faults.{number_of, place_of, layer_of, layer_name, reason_of};

use std::fmt;

/// The layer that a refusal comes from. All crates of the engine speak of the same five.
#[derive(Clone, Copy, PartialEq, Eq, Debug)]
pub enum Layer {
    Word,
    Block,
    File,
    Book,
    Call,
}

impl fmt::Display for Layer {
    ghost output = { λ layer. Some (layer_name layer) };

    fn fmt<W: fmt::Write>(&self, f: &mut fmt::Formatter<W>) -> fmt::Result {
        let name = match self {
            Layer::Word => "word",
            Layer::Block => "block",
            Layer::File => "file",
            Layer::Book => "book",
            Layer::Call => "call",
        };
        f.write_str(name)
    }
}

/// What a refusal tells whoever asked.
#[derive(Clone, Copy, PartialEq, Eq, Debug)]
pub struct Notice {
    /// The number by which callers outside the engine know the fault.
    pub number: u32,
    /// Where the fault is; 0, as it is told outside, where it has no place.
    pub place: usize,
    pub layer: Layer,
    /// The fault in plain words.
    pub reason: &'static str,
}

impl Layer {
    /// The notice of one of the layer's faults.
    pub fn notice(self, number: u32, place: usize, reason: &'static str) -> Notice
        ensures { (result.number ≡ number) × (result.place ≡ place) × (result.layer ≡ self) × (result.reason.now ≡ reason.now) }
    {
        Notice {
            number,
            place,
            layer: self,
            reason,
        }
    }
}

/// Why something is refused: each layer has an enum of its faults, and each fault a notice.
///
/// `Display` is std's, and no impl of it can be given for every `F: Fault`: each enum that is shown has its own.
pub trait Fault {
    ghost number_of: { Self → ℕ };

    ghost place_of: { Self → ℕ };

    ghost layer_of: { Self → Layer };

    ghost reason_of: { Self → List ℕ };

    fn notice(&self) -> Notice
        ensures number { result.number ≡ number_of self.now }
        ensures place { result.place ≡ place_of self.now }
        ensures layer { result.layer ≡ layer_of self.now }
        ensures reason { result.reason.now ≡ reason_of self.now };

    fn number(&self) -> u32
        ensures { result ≡ number_of self.now }
    {
        self.notice().number
    }

    fn place(&self) -> usize
        ensures { result ≡ place_of self.now }
    {
        self.notice().place
    }

    fn layer(&self) -> Layer
        ensures { result ≡ layer_of self.now }
    {
        self.notice().layer
    }

    fn reason(&self) -> &'static str
        ensures { result.now ≡ reason_of self.now }
    {
        self.notice().reason
    }
}

/// The first fault of a question that a sharing rule refuses.
#[derive(Clone, Copy, PartialEq, Eq, Debug)]
pub enum ShareFault {
    /// The memory for the shares is shorter than the list of weights.
    NoRoom,
    /// There are more weights than the rule's greatest count.
    TooManyWeights,
    /// The weight at `place` is over the limit, and none before it is.
    WeightOverLimit { place: usize },
    /// The total is over the limit in size.
    TotalOverLimit,
    /// All weights are 0, and the total is not.
    NoWeight,
}

impl Fault for ShareFault {
    ghost number_of = { number_of };

    ghost place_of = { place_of };

    ghost layer_of = { layer_of };

    ghost reason_of = { reason_of };

    fn notice(&self) -> Notice {
        match *self {
            Self::WeightOverLimit { place } => Layer::Word.notice(
                4,
                place,
                "a weight over the limit",
            ),
            Self::TotalOverLimit => Layer::File.notice(9, 0, "the total over the limit"),
            Self::NoWeight => Layer::File.notice(
                10,
                0,
                "no weight at all for a total that is not zero",
            ),
            Self::TooManyWeights => Layer::File.notice(
                12,
                0,
                "more weights than the rule's greatest count",
            ),
            Self::NoRoom => Layer::Call.notice(13, 0, "memory for the shares too short"),
        }
    }
}

impl fmt::Display for ShareFault {
    ghost output = { λ fault. Some (reason_of fault) };

    fn fmt<W: fmt::Write>(&self, f: &mut fmt::Formatter<W>) -> fmt::Result {
        f.write_str(self.reason())
    }
}
