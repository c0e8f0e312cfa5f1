// What the header of an image and that of a schedule file share. Functions of the bytes, not methods of a type that holds 8 of them:
// docs/PROMISES.md names them with what they ask, and such a type would ask more.
#![tactic(auto)]

ghost use Rattle.std.specs.Prelude.{◌≡◌, ◌≤◌, length};
ghost use Rattle.header.specs.Header.{is_marked, version_at, parties_at, max_at, counts_fit};

use little::number;

// "PD" and a third letter. Public for the formats, which have checked the length.
pub fn is_marked(bytes: &[u8], letter: u8) -> bool
    requires { 8 ≤ length bytes.now }
    ensures { result ≡ is_marked letter bytes.now }
{
    bytes[..3] == [b'P', b'D', letter]
}

// The version. Public for the formats, which have checked the length.
pub fn version(bytes: &[u8]) -> u16
    requires { 8 ≤ length bytes.now }
    ensures { result ≡ version_at bytes.now }
{
    number::<2>(bytes, 3) as u16
}

// The party count. Public for the formats, which have checked the length.
pub fn parties(bytes: &[u8]) -> u8
    requires { 8 ≤ length bytes.now }
    ensures { result ≡ parties_at bytes.now }
{
    bytes[5]
}

// MAX. Public for the formats, which have checked the length.
pub fn max(bytes: &[u8]) -> u16
    requires { 8 ≤ length bytes.now }
    ensures { result ≡ max_at bytes.now }
{
    number::<2>(bytes, 6) as u16
}

// MAX is from 1 to 4,094, the party count from 1 to 16.
pub fn counts_fit(max: u32, parties: u32) -> bool
    ensures { result ≡ counts_fit max parties }
{
    (1..=4094).contains(&max) & (1..=16).contains(&parties)
}
