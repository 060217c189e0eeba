// What came of one block of the input.
ghost use Rattle.std.specs.Prelude.{◌≡◌, Some};
ghost use Rattle.card.specs.Keeping.{line_text};
ghost use Rattle.card.specs.declared.outcome.KeepError.TheVariants.{Refused};

use blocks::refusal::Refusal;
use std::fmt;

// Why a block was not kept.
#[derive(Clone, Copy)]
pub enum KeepError {
    // It was written, and other bytes came back. No device that keeps its promises does that.
    Changed,
    Refused(Refusal),
}

// What comes of a block: it is kept, or not.
pub type Outcome = Result<(), KeepError>;

impl From<Refusal> for KeepError {
    ghost from_gives = { λ refusal e. e ≡ Refused refusal };

    fn from(refusal: Refusal) -> KeepError {
        KeepError::Refused(refusal)
    }
}

// A block with what came of it, as it is printed.
#[derive(Clone, Copy)]
pub struct Line {
    pub block: usize,
    pub outcome: Outcome,
}

impl fmt::Display for Line {
    ghost output = { λ l. Some (line_text l.block l.outcome) };

    fn fmt<W: fmt::Write>(&self, f: &mut fmt::Formatter<W>) -> fmt::Result {
        let block = self.block;
        match self.outcome {
            Ok(()) => write!(f, "{block} ok"),
            Err(KeepError::Changed) => write!(f, "{block} changed"),
            Err(KeepError::Refused(refusal)) => {
                let number = refusal.number();
                write!(f, "{block} no {number}")
            }
        }
    }
}
