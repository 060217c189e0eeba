// What a store itself refuses.
ghost use Rattle.std.specs.Prelude.{◌≡◌};
ghost use Rattle.plan.specs.Refusals.{store_number};

#[derive(Clone, Copy, PartialEq, Eq, Debug)]
pub enum StoreRefusal {
    EmptyRange = 4,
    ShortPage = 5,
    FullCount = 6,
    NoRoom = 7,
    NoSuchBlock = 8,
    Spent = 9,
    Lost = 10,
    WrongKind = 13,
    NotClosed = 14,
}

impl StoreRefusal {
    pub fn number(self) -> u8
        ensures { result ≡ store_number self }
    {
        self as u8
    }
}
