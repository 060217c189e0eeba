// A field told as letter, number or junk.
ghost use Rattle.std.specs.Prelude.{◌≡◌};
ghost use Rattle.fields.specs.Told.{told, told_of, text_of, place_of};
ghost use Rattle.fields.specs.Laws.{ToldRight};

use crate::numbers::number_in;

// The part of a line that a field is, its place there, and what it is told as.
#[derive(Clone, Copy)]
pub enum Token<'a> {
    Letter {
        text: &'a [u8],
        place: usize,
        letter: char,
    },
    Number {
        text: &'a [u8],
        place: usize,
        value: i64,
    },
    Junk {
        text: &'a [u8],
        place: usize,
    },
}

impl<'a> Token<'a> {
    // Tells the field at a place.
    pub fn tell(text: &'a [u8], place: usize) -> Token<'a>
        ensures sort { told_of result ≡ told text.now }
        ensures right { ToldRight text.now (told_of result) }
        ensures part { text_of result ≡ text.now }
        ensures at { place_of result ≡ place }
    {
        match text {
            [letter] if letter.is_ascii_alphabetic() => Token::Letter {
                text,
                place,
                letter: char::from(*letter),
            },
            _ => match number_in(text) {
                Some(value) => Token::Number { text, place, value },
                None => Token::Junk { text, place },
            },
        }
    }
}
