// Whether a store is in use, as its root's block says.
ghost use Rattle.std.specs.Prelude.{◌≡◌};
ghost use Rattle.rules.specs.Marks.{mark_number, Decodes};

use crate::rule::Rule;

#[derive(Clone, Copy, PartialEq, Eq, Debug)]
pub enum Mark {
    Closed = 1,
    InUse = 2,
}

impl Mark {
    // The bytes by names that patterns can use.
    const CLOSED: u8 = Mark::Closed as u8;

    const IN_USE: u8 = Mark::InUse as u8;

    // The byte that stands for the mark.
    pub fn number(self) -> u8
        ensures { result ≡ mark_number self }
    {
        self as u8
    }
}

// A byte that stands for no mark breaks the rule on marks.
impl TryFrom<u8> for Mark {
    type Error = Rule;

    ghost try_from_gives = { Decodes };

    fn try_from(number: u8) -> Result<Mark, Rule> {
        match number {
            Mark::CLOSED => Ok(Mark::Closed),
            Mark::IN_USE => Ok(Mark::InUse),
            _ => Err(Rule::Mark),
        }
    }
}
