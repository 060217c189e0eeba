// Bytes that have to be zero.
ghost use Rattle.std.specs.Prelude.{◌≡◌};
ghost use Rattle.rows.specs.Bytes.{all_zero};

// Whether each byte is zero.
pub fn is_zero(bytes: &[u8]) -> bool
    ensures { result ≡ all_zero bytes.now }
{
    // `all` was tried: it takes one step more for each byte, and slows the reading of nodes.
    for b in bytes {
        if *b != 0 {
            return false;
        }
    }
    true
}
