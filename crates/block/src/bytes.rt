// Parts of a block: numbers, zeros, and the bytes at the front.
ghost use Rattle.std.specs.Prelude.{◌≡◌, ◌-◌, ◌≤◌, ◌++◌, length, take, Decides};
ghost use Rattle.block.specs.Bytes.{at2, at4, bytes_from, zeros, AllZero};

use std::array;

// The N bytes from a place on. Bytes past the end count as zero.
fn bytes_at<const N: usize>(bytes: &[u8], at: usize) -> [u8; N]
    ensures { result ≡ bytes_from bytes.now at N }
{
    let rest = bytes.get(at..).unwrap_or(&[]);
    array::from_fn(|k| rest.get(k).copied().unwrap_or(0))
}

// The number of two bytes that stands at a place. Bytes past the end count as zero.
pub fn word(bytes: &[u8], at: usize) -> u16
    ensures { result ≡ at2 bytes.now at }
{
    u16::from_le_bytes(bytes_at(bytes, at))
}

// The number of four bytes that stands at a place. Bytes past the end count as zero.
pub fn quad(bytes: &[u8], at: usize) -> u32
    ensures { result ≡ at4 bytes.now at }
{
    u32::from_le_bytes(bytes_at(bytes, at))
}

// Whether each byte of the part is zero.
pub fn is_zero(part: &[u8]) -> bool
    ensures { Decides result (AllZero part.now) }
{
    part.iter().all(|x| *x == 0)
}

// A block that begins with these bytes and is zero behind them.
pub(crate) fn padded(front: &[u8]) -> [u8; 512]
    requires { length front.now ≤ 512 }
    ensures value { result ≡ front.now ++ zeros (512 - length front.now) }
    ensures start { take (length front.now) result ≡ front.now }
{
    let mut block = [0; 512];
    block[..front.len()].copy_from_slice(front);
    block
}
