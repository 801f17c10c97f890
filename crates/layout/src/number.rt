// Numbers in little-endian order, read from bytes and written to them.
ghost use Rattle.std.specs.Prelude.{◌≡◌, ◌+◌, ◌≤◌, length, drop};
ghost use Rattle.std.proofs.lemmas.List.Edits.{sets};
ghost use Rattle.layout.specs.Le.{le, bytes};

pub fn le16(s: &[u8], at: usize) -> u16
    requires { at + 2 ≤ length s.now }
    ensures { result ≡ le 2 (drop at s.now) }
{
    (s[at] as u16) + (s[at + 1] as u16) * 256
}

pub fn le32(s: &[u8], at: usize) -> u32
    requires { at + 4 ≤ length s.now }
    ensures { result ≡ le 4 (drop at s.now) }
{
    (le16(s, at) as u32) + (le16(s, at + 2) as u32) * 65536
}

pub fn le64(s: &[u8], at: usize) -> u64
    requires { at + 8 ≤ length s.now }
    ensures { result ≡ le 8 (drop at s.now) }
{
    (le32(s, at) as u64) + (le32(s, at + 4) as u64) * 4294967296
}

pub fn put16(s: &mut [u8], at: usize, x: u16)
    requires { at + 2 ≤ length s.old }
    ensures { s.new ≡ sets s.old at (bytes 2 x) }
{
    s[at] = (x % 256) as u8;
    s[at + 1] = (x / 256) as u8;
}

pub fn put32(s: &mut [u8], at: usize, x: u32)
    requires { at + 4 ≤ length s.old }
    ensures { s.new ≡ sets s.old at (bytes 4 x) }
{
    put16(s, at, (x % 65536) as u16);
    put16(s, at + 2, (x / 65536) as u16);
}

pub fn put64(s: &mut [u8], at: usize, x: u64)
    requires { at + 8 ≤ length s.old }
    ensures { s.new ≡ sets s.old at (bytes 8 x) }
{
    put32(s, at, (x % 4294967296) as u32);
    put32(s, at + 4, (x / 4294967296) as u32);
}
