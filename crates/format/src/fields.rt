// A record in the bytes of an image. Each asks that its 32 bytes lie inside, and no type holds that: docs/PROMISES.md names these
// functions with what they ask, and such a type would ask more.
ghost use Rattle.std.specs.Prelude.{◌≡◌, ◌+◌, ◌≤◌, length};
ghost use Rattle.std.proofs.lemmas.List.Edits.{sets};
ghost use Rattle.header.specs.Header.{version_at};
ghost use Rattle.format.specs.Spelling.{record_at, is_spare, record_bytes};

use little::{number, put};
use record::Record;

// The record that its bytes spell. Public for the calls on images, which have checked the length.
#[tactic(auto, unfolding(crate::specs::Spelling::record_at))]
pub fn read_record(image: &[u8], at: usize) -> Record
    requires { at + 32 ≤ length image.now }
    ensures { result ≡ record_at (version_at image.now) image.now at }
{
    Record {
        operation: image[at],
        stage: image[at + 1],
        k: number::<2>(image, at + 2) as u16,
        v: number::<4>(image, at + 4) as u32,
        first: number::<8>(image, at + 8),
        second: number::<8>(image, at + 16),
    }
}

// The bytes that spell no field are zero. Public for the calls on images, which have checked the length.
pub fn is_spare(image: &[u8], at: usize) -> bool
    requires { at + 32 ≤ length image.now }
    ensures { result ≡ is_spare (version_at image.now) image.now at }
{
    number::<8>(image, at + 24) == 0
}

// A record into its bytes. Public for the calls on images, which have checked the length.
pub fn write_record(image: &mut [u8], at: usize, r: Record)
    requires { at + 32 ≤ length image.old }
    ensures { image.new ≡ sets image.old at (record_bytes (version_at image.old) r) }
{
    image[at] = r.operation;
    image[at + 1] = r.stage;
    put::<2>(image, at + 2, r.k as u64);
    put::<4>(image, at + 4, r.v as u64);
    put::<8>(image, at + 8, r.first);
    put::<8>(image, at + 16, r.second);
}
