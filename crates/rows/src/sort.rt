// The sorts of messages, and the numbers that say them in rows.
ghost use Rattle.rows.specs.Sorts.{Decodes, HasSort};

use messages::message::Message;

#[derive(Clone, Copy, PartialEq, Eq, Debug)]
pub enum Sort {
    Put = 1,
    Remove = 2,
    Add = 3,
}

// A number that says no sort.
#[derive(Clone, Copy, PartialEq, Eq, Debug)]
pub struct UnknownSort(pub u8);

// The numbers by names that patterns can use.
impl Sort {
    const PUT: u8 = Sort::Put as u8;

    const REMOVE: u8 = Sort::Remove as u8;

    const ADD: u8 = Sort::Add as u8;
}

impl From<Message> for Sort {
    ghost from_gives = { HasSort };

    fn from(message: Message) -> Sort {
        match message {
            Message::Put(_) => Sort::Put,
            Message::Remove => Sort::Remove,
            Message::Add(_) => Sort::Add,
        }
    }
}

impl TryFrom<u8> for Sort {
    type Error = UnknownSort;

    ghost try_from_gives = { Decodes };

    fn try_from(number: u8) -> Result<Sort, UnknownSort> {
        match number {
            Sort::PUT => Ok(Sort::Put),
            Sort::REMOVE => Ok(Sort::Remove),
            Sort::ADD => Ok(Sort::Add),
            _ => Err(UnknownSort(number)),
        }
    }
}
