// Big-endian numbers of a byte string.
ghost use Rattle.std.specs.Prelude.{◌≡◌, ◌+◌, ◌*◌, ◌≤◌, ◌<◌, length};
ghost use Rattle.fields.specs.Bytes.{byte_at, number16, number32};

pub fn wide(x: u8) -> u64
    ensures { (result ≡ x) × (result < 256) }
{
    u64::from(x)
}

// The byte at a place; 0 past the end.
pub fn byte(s: &[u8], at: usize) -> u64
    ensures { (result ≡ byte_at s.now at) × (result < 256) }
{
    s.get(at).map_or(0, |&x| wide(x))
}

// The number of two bytes that are there, the first the highest.
pub fn whole16(s: &[u8], at: usize) -> u64
    requires { at + 2 ≤ length s.now }
    ensures { (result ≡ number16 s.now at) × (result < 65536) }
{
    u64::from(u16::from_be_bytes([s[at], s[at + 1]]))
}

// The number of four bytes that are there, the first the highest.
pub fn whole32(s: &[u8], at: usize) -> u64
    requires { at + 4 ≤ length s.now }
    ensures { (result ≡ number32 s.now at) × (result < 4294967296) }
{
    u64::from(u32::from_be_bytes([s[at], s[at + 1], s[at + 2], s[at + 3]]))
}

// The number of two bytes, the first the highest; one test where both are there.
pub fn read16(s: &[u8], at: usize) -> u64
    requires { at ≤ 1000000 }
    ensures { (result ≡ number16 s.now at) × (result < 65536) }
{
    if at + 2 <= s.len() {
        return whole16(s, at);
    }
    byte(s, at) * 256 + byte(s, at + 1)
}

// The number of four bytes, the first the highest.
pub fn read32(s: &[u8], at: usize) -> u64
    requires { at ≤ 999000 }
    ensures { (result ≡ number32 s.now at) × (result < 4294967296) }
{
    if at + 4 <= s.len() {
        return whole32(s, at);
    }
    read16(s, at) * 65536 + read16(s, at + 2)
}
