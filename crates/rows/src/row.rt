// What stands in a row of bytes of fixed size.
ghost use Rattle.std.specs.Prelude.{◌≡◌, ◌≤◌, length};
ghost use Rattle.rows.specs.Coding.{Coding};

// A type whose values stand in rows. Its coding carries both round trips.
pub trait Row: Copy {
    ghost coding: { Coding Self };

    // The bytes of a row.
    fn size() -> usize
        ensures { result ≡ coding.size };

    // Fills the row with the value.
    fn write(self, row: &mut [u8])
        requires { length row.old ≡ coding.size }
        ensures { row.new ≡ coding.encode self };

    // What the row at the front of the bytes says.
    fn read(bytes: &[u8]) -> Self
        requires { coding.size ≤ length bytes.now }
        ensures { result ≡ coding.decode bytes.now };
}
