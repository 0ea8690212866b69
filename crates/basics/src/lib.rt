// A 16-bit number in bytes.
#![tactic(auto)]

ghost use Rattle.std.specs.Prelude.{◌≡◌, ◌+◌, ◌<◌, ◌≤◌, length};
ghost use Rattle.lists.specs.Field.{word16};

// A 16-bit number, low byte first.
#[tactic(auto, unfolding(lists::specs::Field::word16))]
pub fn word_at(bytes: &[u8], i: usize) -> usize
    requires { i + 2 ≤ length bytes.now }
    ensures { (result ≡ word16 bytes.now i) × (result < 65536) }
{
    usize::from(u16::from_le_bytes([bytes[i], bytes[i + 1]]))
}
