// The rules that a node's block keeps, in the order in which they are told.
ghost use Rattle.std.specs.Prelude.{◌≡◌, [], ◌∷◌};
ghost use Rattle.messages.specs.Outcomes.{ok_unless};
ghost use Rattle.rules.specs.Rules.{rule_number, first_broken};

// The rule that a bad node breaks first.
#[derive(Clone, Copy, PartialEq, Eq, Debug)]
pub enum Rule {
    // The level is 1 to 8 in the root, and one below the parent's elsewhere.
    Level = 1,
    // The mark is 1 or 2 in the root, and 0 elsewhere.
    Mark = 2,
    // There are at most 256 messages or records.
    Count = 3,
    // The number of children fits the node.
    Children = 4,
    // The kind is the store's, except in the root.
    Kind = 5,
    // The root's next free number and updates are in range; elsewhere bytes 8 to 31 are zero.
    HeaderNumbers = 6,
    // Pivots rise strictly, inside the node's span.
    Pivots = 7,
    // Child numbers are at least 1 and below the next free number.
    ChildNumbers = 8,
    // Keys rise strictly, inside the span, and message numbers are known.
    Keys = 9,
    // A remove's word and unused bytes are zero.
    Unused = 10,
}

impl Rule {
    // The rule's number, 1 to 10.
    pub fn number(self) -> u8
        ensures { result ≡ rule_number self }
    {
        self as u8
    }

    // Tells the rule unless it is kept.
    pub fn unless(self, kept: bool) -> Result<(), Rule>
        ensures { result ≡ ok_unless (first_broken ((kept, self) ∷ [])) tt }
    {
        if kept { Ok(()) } else { Err(self) }
    }
}
