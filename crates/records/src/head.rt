//! The head of a file.
ghost use Rattle.std.specs.Prelude.{◌≡◌, ◌≤◌, length, drop, take};
ghost use Rattle.std.specs.Int.{w64, from_be_bytes};
ghost use Rattle.records.specs.Heads as spec;

/// What a file begins with: a magic, and the version.
pub(crate) const MAGIC: &[u8] = b"mdropd\0\x01";

/// How many bytes the magic has.
const MAGIC_SIZE: usize = 8;

/// How many bytes a head has.
pub(crate) const HEAD: usize = 16;

/// Whether one of the two begins with the other.
fn agree(bytes: &[u8], others: &[u8]) -> bool
    ensures { result ≡ spec.agree bytes.now others.now }
{
    for i in 0..bytes.len().min(others.len()) {
        if bytes[i] != others[i] {
            return false;
        }
    }
    true
}

/// Whether a file can begin with these bytes.
pub(crate) fn may_begin(bytes: &[u8]) -> bool
    ensures { result ≡ spec.may_begin bytes.now }
{
    agree(bytes, MAGIC)
}

/// The salt of a head.
pub(crate) fn salt_of(head: &[u8]) -> u64
    requires { 16 ≤ length head.now }
    ensures { result ≡ spec.salt_of head.now }
{
    let (_, salt) = head.split_at(MAGIC_SIZE);
    u64::from_be_bytes([
        salt[0], salt[1], salt[2], salt[3], salt[4], salt[5], salt[6], salt[7],
    ])
}
