// Numbers in lent bytes, least byte first. All are public for the readers and writers of a format, who have checked its length, and
// ask that the bytes lie inside. Byte by byte, not by copy_from_slice: of two bytes that is ten instructions more on Cortex-M (measured).
#![tactic(auto)]

ghost use Rattle.std.specs.Prelude.{◌≡◌, ◌+◌, ◌^◌, ◌<◌, ◌≤◌, length};
ghost use Rattle.std.proofs.lemmas.List.Edits.{sets};
ghost use Rattle.little.specs.Bytes.{number_at, bytes_of};

// The number that W bytes spell. Public for the formats, which have checked the length.
pub fn number<const W: usize>(bytes: &[u8], at: usize) -> u64
    requires { (at + W ≤ length bytes.now) × (W ≤ 8) }
    ensures spells { result ≡ number_at W bytes.now at }
    ensures fits { result < 256 ^ W }
{
    let mut wide = [0; 8];
    for i in 0..W {
        wide[i] = bytes[at + i];
    }
    u64::from_le_bytes(wide)
}

// A number into W bytes. Public for the formats, which have checked the length.
pub fn put<const W: usize>(bytes: &mut [u8], at: usize, n: u64)
    requires { (at + W ≤ length bytes.old) × (W ≤ 8) }
    ensures { bytes.new ≡ sets bytes.old at (bytes_of W n) }
{
    let wide = n.to_le_bytes();
    for i in 0..W {
        bytes[at + i] = wide[i];
    }
}
