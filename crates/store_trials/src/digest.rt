// The digests of blocks.
use trial_runs::digest::{NO_DIGEST, mix};

// The digest of bytes.
pub fn digest(bytes: &[u8]) -> u64 {
    bytes
        .iter()
        .fold(NO_DIGEST, |sum, byte| mix(sum, u64::from(*byte)))
}
