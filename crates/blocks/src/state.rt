// What a block is worth to a reader.

// A lost block can be neither read nor written; a damaged one can be written, which makes it sound.
#[derive(Clone, Copy, PartialEq, Eq, Debug)]
pub enum State {
    Sound,
    Damaged,
    Lost,
}
