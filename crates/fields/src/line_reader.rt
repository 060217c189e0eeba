// Hands out the fields of a line.
ghost use Rattle.std.specs.Prelude.{◌≡◌, ◌↔◌, [], IsTrue, IsSome};
ghost use Rattle.std.specs.Iterator.{item_count};
ghost use Rattle.fields.specs.Parts.{fields_of};
ghost use Rattle.fields.specs.Handed.{fields_left, FieldHanded};
ghost use Rattle.fields.specs.Laws.{Parted};
ghost use Rattle.fields.specs.Taken.{first, rest, letter_in, amount_in, day_in, key_in};

use crate::scan::before;
use crate::token::Token;
use std::marker::Model;

// A line, and the place where its next field starts: past the line's end once the last is handed out.
#[derive(Drop)]
pub struct LineReader<'a> {
    line: &'a [u8],
    place: usize,
}

impl<'a> Model for LineReader<'a> {
    ghost use Rattle.fields.specs.Handed.{Cursor};

    ghost Value = { Cursor };

    ghost view = { λ s. record { line = s.line.now; place = s.place } };
}

// Each field comes told as letter, number or junk.
impl<'a> Iterator for LineReader<'a> {
    type Item = Token<'a>;

    ghost next_gives = { FieldHanded };

    ghost remaining = { item_count fields_left };

    fn next(&mut self) -> Option<Token<'a>> {
        let text = before(self.line.get(self.place..)?, b'\t');
        let token = Token::tell(text, self.place);
        self.place += text.len() + 1;
        Some(token)
    }
}

impl<'a> LineReader<'a> {
    pub fn new(line: &'a [u8]) -> LineReader<'a>
        ensures left { fields_left result ≡ fields_of line.now }
        ensures parted { Parted line.now (fields_left result) }
    {
        LineReader { line, place: 0 }
    }

    // Whether no field is left.
    pub fn ended(&self) -> bool
        ensures { IsTrue result ↔ (fields_left self.now ≡ []) }
    {
        self.place > self.line.len()
    }

    // None where a field is left.
    pub fn end(&self) -> Option<()>
        ensures { IsSome result ↔ (fields_left self.now ≡ []) }
    {
        self.ended().then_some(())
    }

    // The next field, if it is a letter.
    pub fn letter(&mut self) -> Option<char>
        ensures value { result ≡ letter_in (first (fields_left self.old)) }
        ensures left { fields_left self.new ≡ rest (fields_left self.old) }
    {
        match self.next()? {
            Token::Letter { letter, .. } => Some(letter),
            _ => None,
        }
    }

    // The next field, if it is a number, maybe with a minus.
    pub fn amount(&mut self) -> Option<i64>
        ensures value { result ≡ amount_in (first (fields_left self.old)) }
        ensures left { fields_left self.new ≡ rest (fields_left self.old) }
    {
        match self.next()? {
            Token::Number { value, .. } => Some(value),
            _ => None,
        }
    }

    // The next field, if it is a number without a minus.
    pub fn day(&mut self) -> Option<u64>
        ensures value { result ≡ day_in (first (fields_left self.old)) }
        ensures left { fields_left self.new ≡ rest (fields_left self.old) }
    {
        u64::try_from(self.amount()?).ok()
    }

    // The next field, if it is a key.
    pub fn key(&mut self) -> Option<u32>
        ensures value { result ≡ key_in (first (fields_left self.old)) }
        ensures left { fields_left self.new ≡ rest (fields_left self.old) }
    {
        u32::try_from(self.day()?).ok()
    }
}
