// A fresh image, laid part by part.
ghost use Rattle.std.specs.Prelude.{◌≡◌, ◌+◌, ◌*◌, ◌≤◌, length, replicate};
ghost use Rattle.std.proofs.lemmas.List.Edits.{sets};
ghost use Rattle.strip.specs.Lay.{rights_of};
ghost use Rattle.format.specs.Format.{word_place};
ghost use Rattle.format.specs.Spelling.{word_bytes};
ghost use Rattle.format.specs.Fresh.{header_bytes};

use little::put;

// The mark, the version, the party count and MAX. Public for lay and for writing a whole image, which have checked the length. The mark
// byte by byte: copy_from_slice(b"PDS") costs every lay six instructions more (measured).
pub fn lay_header(image: &mut [u8], version: u16, max: u16, parties: u8)
    requires { 8 ≤ length image.old }
    ensures { image.new ≡ sets image.old 0 (header_bytes version max parties) }
{
    image[0] = b'P';
    image[1] = b'D';
    image[2] = b'S';
    put::<2>(image, 3, version as u64);
    image[5] = parties;
    put::<2>(image, 6, max as u64);
}

// LN in every word and idle in every record are zeros. Public for lay, which has checked the length. Not by `fill`, which lays the last
// byte apart and costs every lay, a refused one too, four instructions more (measured).
pub fn lay_zeros(image: &mut [u8], at: usize, count: usize)
    requires { at + count ≤ length image.old }
    ensures { image.new ≡ sets image.old at (replicate count 0) }
{
    for byte in image[at..at + count].iter_mut() {
        *byte = 0;
    }
}

// RN past the divide, in the strip that begins at a base. Public for lay, which has checked the length and the divide.
pub fn lay_rights(image: &mut [u8], base: usize, max: u16, divide: u32)
    requires { (word_place base (max + 2) ≤ length image.old) × (divide ≤ max) }
    ensures { image.new ≡ sets image.old (word_place base (divide + 1)) (word_bytes (rights_of max divide)) }
{
    for i in divide as usize + 1..max as usize + 2 {
        put::<8>(image, base + 8 * i, 1);
    }
}
