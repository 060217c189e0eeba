// FNV-1a digests, 64 bits wide.
ghost use Rattle.std.specs.Prelude.{◌≡◌};
ghost use Rattle.trial_runs.specs.Digests.{mixed};

// The digest of nothing.
pub const NO_DIGEST: u64 = 14695981039346656037;

// The digest of one number more.
pub fn mix(digest: u64, number: u64) -> u64
    ensures { result ≡ mixed digest number }
{
    (digest ^ number).wrapping_mul(1099511628211)
}
