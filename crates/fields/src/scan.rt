// The part before the next mark.
ghost use Rattle.std.specs.Prelude.{◌≡◌};
ghost use Rattle.fields.specs.Parts.{before};

// The bytes before the first mark, all where there is none.
pub(crate) fn before(bytes: &[u8], mark: u8) -> &[u8]
    ensures { result.now ≡ before mark bytes.now }
{
    let end = bytes.iter().position(|b| *b == mark);
    &bytes[..end.unwrap_or(bytes.len())]
}
