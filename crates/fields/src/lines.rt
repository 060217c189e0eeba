// Hands out the lines of an input.
ghost use Rattle.std.specs.Prelude.{◌≡◌, [], MatchOption};
ghost use Rattle.std.specs.Iterator.{item_count};
ghost use Rattle.fields.specs.Parts.{lines_of};
ghost use Rattle.fields.specs.Handed.{lines_left, TextHanded};
ghost use Rattle.fields.specs.Laws.{Lined};

use crate::scan::before;
use std::marker::Model;

// An input, and the place where its next line starts.
#[derive(Drop)]
pub struct Lines<'a> {
    input: &'a [u8],
    place: usize,
}

impl<'a> Model for Lines<'a> {
    ghost use Rattle.fields.specs.Handed.{InputCursor};

    ghost Value = { InputCursor };

    ghost view = { λ s. record { input = s.input.now; place = s.place } };
}

impl<'a> Lines<'a> {
    pub fn new(input: &'a [u8]) -> Lines<'a>
        ensures left { lines_left result ≡ lines_of input.now }
        ensures lined { Lined input.now (lines_left result) }
    {
        Lines { input, place: 0 }
    }
}

// Each line comes without its LF.
impl<'a> Iterator for Lines<'a> {
    type Item = &'a [u8];

    ghost next_gives = { λ s line s'. MatchOption line ((lines_left s ≡ []) × (s' ≡ s)) (λ t. TextHanded s t.now s') };

    ghost remaining = { item_count lines_left };

    fn next(&mut self) -> Option<&'a [u8]> {
        if self.place >= self.input.len() {
            return None;
        }
        let line = before(&self.input[self.place..], b'\n');
        self.place += line.len() + 1;
        Some(line)
    }
}
