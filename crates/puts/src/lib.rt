// Bits put into lent bytes: a field, a run copied, a run as whole bytes. What is put, the definitions of `bits` say.
#![tactic(auto)]

ghost use Rattle.std.specs.Prelude.{◌≡◌, ◌+◌, ◌*◌, ◌^◌, ◌<◌, ◌≤◌, length};
ghost use Rattle.bits.specs.Bits.{bits, unpack, true_bits, cut, put, bytes_for, pack};

use bits::Part;

// The byte `b` with the `n` bits after its first `skip` made `c`.
fn byte_with(b: u8, skip: usize, n: usize, c: u64) -> u8
    requires { (skip + n ≤ 8) × (c < 2 ^ n) }
    ensures { bits 8 result ≡ put skip (bits n c) (bits 8 b) }
{
    let room = 8 - skip;
    let after = room - n;
    let x = u64::from(b);
    let y = ((x >> room) << room) | ((c << after) | bits::low(x, after));
    y as u8
}

// Makes the `n` bits after the first `skip` of the byte `i` those of `c`, and changes no other bit.
fn put_in_byte(part: &mut [u8], i: usize, skip: usize, n: usize, c: u64)
    requires { (i < length part.old) × (skip + n ≤ 8) × (c < 2 ^ n) }
    ensures { unpack part.new ≡ put (8 * i + skip) (bits n c) (unpack part.old) }
{
    part[i] = byte_with(part[i], skip, n, c);
}

// Makes the 32 bits from the byte `i` on the low bits of `value`, by one store, and changes no other bit.
fn put_four(part: &mut [u8], i: usize, value: u64)
    requires { i + 4 ≤ length part.old }
    ensures { unpack part.new ≡ put (8 * i) (bits 32 value) (unpack part.old) }
{
    let four = bits::low(value, 32) as u32;
    part[i..i + 4].copy_from_slice(&four.to_be_bytes());
}

// Makes the `width` bits from the byte `first` on the low bits of `value`, and changes no other bit. Whole bytes are not
// read; the first four, where so many bits are left, are stored at once.
fn put_bytes(part: &mut [u8], first: usize, width: usize, value: u64)
    requires { (width < 64) × (8 * first + width ≤ 8 * length part.old) × (8 * first + width < 2 ^ 64) }
    ensures { unpack part.new ≡ put (8 * first) (bits width value) (unpack part.old) }
{
    let mut i = first;
    let mut left = width;
    if left >= 32 {
        left -= 32;
        put_four(part, i, value >> left);
        i += 4;
    }
    while left >= 8 {
        left -= 8;
        part[i] = bits::low(value >> left, 8) as u8;
        i += 1;
    }
    if left > 0 {
        put_in_byte(part, i, 0, left, bits::low(value, left));
    }
}

// Makes the `width` bits from the place `from` on those of `value`, and changes no other bit: those in the first byte, then
// those from the next byte on.
pub fn put_field(part: &mut [u8], from: usize, width: usize, value: u64)
    requires { (width ≤ 64) × (value < 2 ^ width) × (from + width ≤ 8 * length part.old) × (from + width < 2 ^ 64) }
    ensures { unpack part.new ≡ put from (bits width value) (unpack part.old) }
{
    if width == 0 {
        return;
    }
    let first = from / 8;
    let skip = from % 8;
    let room = 8 - skip;
    if width <= room {
        put_in_byte(part, first, skip, width, value);
        return;
    }
    let left = width - room;
    put_in_byte(part, first, skip, room, value >> left);
    put_bytes(part, first + 1, left, value);
}

// Copies the `n` true bits of `src` from the place `from` on to the place `to` of `dst`, and changes no other bit.
pub fn copy_bits(dst: &mut [u8], to: usize, src: Part, from: usize, n: usize)
    requires { (to + n ≤ 8 * length dst.old) × (from + n ≤ 8 * length src.bytes.now) × (to + n < 2 ^ 64) × (from + n < 2 ^ 64) }
    ensures { unpack dst.new ≡ put to (cut from n (true_bits src.entry.phase src.entry.bytes.now)) (unpack dst.old) }
{
    for done in (0..n).step_by(57) {
        let k = (n - done).min(57);
        put_field(dst, to + done, k, src.field(from + done, k));
    }
}

// Makes the first bytes of `dst` those that the `n` true bits of `src` from the place `from` on make, the last one filled up with
// zeros, and changes no other byte.
pub fn pack_bits(dst: &mut [u8], src: Part, from: usize, n: usize)
    requires { (bytes_for n ≤ length dst.old) × (from + n ≤ 8 * length src.bytes.now) × (from + n < 2 ^ 63) }
    ensures { dst.new ≡ put 0 (pack (cut from n (true_bits src.entry.phase src.entry.bytes.now))) dst.old }
{
    copy_bits(dst, 0, src, from, n);
    put_field(dst, n, n.next_multiple_of(8) - n, 0);
}
