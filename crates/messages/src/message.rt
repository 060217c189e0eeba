// Messages, and what stands after one arrives where another is held.
ghost use Rattle.std.specs.Prelude.{◌≡◌, ℕ, Option};
ghost use Rattle.messages.specs.Messages.{effect, fold};

use crate::kind::Kind;

#[derive(Clone, Copy, PartialEq, Eq, Debug)]
pub enum Message {
    // The key holds the value.
    Put(u64),
    // The key is absent.
    Remove,
    // The delta acts on the key's value, or on the start value if it is absent.
    Add(u64),
}

impl Message {
    // The one message that does what `self` and then `arriving` do.
    pub fn fold<K: Kind>(self, arriving: Message) -> Message
        ensures which { result ≡ fold K.algebra self arriving }
        ensures acts { (o : Option ℕ) → effect K.algebra result o ≡ effect K.algebra arriving (effect K.algebra self o) }
    {
        match (self, arriving) {
            (_, Message::Put(value)) => Message::Put(value),
            (_, Message::Remove) => Message::Remove,
            (Message::Put(value), Message::Add(delta)) => Message::Put(K::act(value, delta)),
            (Message::Remove, Message::Add(delta)) => Message::Put(K::act(K::start(), delta)),
            (Message::Add(earlier), Message::Add(later)) => Message::Add(K::join(earlier, later)),
        }
    }

    // What a key that held `held` holds after the message.
    pub fn apply<K: Kind>(self, held: Option<u64>) -> Option<u64>
        ensures { result ≡ effect K.algebra self held }
    {
        match (self, held) {
            (Message::Put(value), _) => Some(value),
            (Message::Remove, _) => None,
            (Message::Add(delta), Some(value)) => Some(K::act(value, delta)),
            (Message::Add(delta), None) => Some(K::act(K::start(), delta)),
        }
    }
}
