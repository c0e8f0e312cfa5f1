// A line, of which one field after another is taken.
ghost use Rattle.std.specs.Prelude.{ℕ, ◌≡◌, ◌≢◌, ◌≤◌, ◌<◌, ◌↔◌, [], true, false, get_or, length, IsSome, IfSome};
ghost use Rattle.std.specs.List.{list_all};
ghost use Rattle.console.specs.Fields.{is_blank, is_ink, blanks, field_length, field_of, rest_of};

// No line has more numbers.
pub const MOST_NUMBERS: usize = 4224;

// What is left of a line, and how many numbers may yet be taken.
#[derive(Drop)]
pub struct Line<'a> {
    pub text: &'a [u8],
    pub numbers: usize,
}

// Not is_ascii_whitespace, which leaves out 11.
fn is_blank(b: u8) -> bool
    ensures { result ≡ is_blank b }
{
    matches!(b, 9..=13 | 32)
}

fn is_ink(b: u8) -> bool
    ensures { result ≡ is_ink b }
{
    !is_blank(b)
}

// The place of the first byte that passes a test, or the text's length.
fn first<F: Fn(u8) -> bool>(text: &[u8], test: F) -> usize
    requires { F.IsAlwaysCallable test }
    ensures bound { result ≤ length text.now }
    ensures before { (i : ℕ) → i < result → F.post test (get_or text.now i 0) false }
    ensures at { result < length text.now → F.post test (get_or text.now result 0) true }
{
    text.iter().position(|b| test(*b)).unwrap_or(text.len())
}

#[tactic(auto, using(crate::proofs::Fields::first_at))]
fn blanks(text: &[u8]) -> usize
    ensures value { result ≡ blanks text.now }
    ensures bound { result ≤ length text.now }
{
    first(text, is_ink)
}

#[tactic(auto, using(crate::proofs::Fields::first_at))]
fn field_length(text: &[u8]) -> usize
    ensures value { result ≡ field_length text.now }
    ensures bound { result ≤ length text.now }
{
    first(text, is_blank)
}

impl<'a> Line<'a> {
    pub fn new(text: &'a [u8]) -> Self
        ensures all { result.text.now ≡ text.now }
        ensures numbers { result.numbers ≡ 4224 }
    {
        Line {
            text,
            numbers: MOST_NUMBERS,
        }
    }

    // The next field, which blanks end.
    #[tactic(auto, unfolding(crate::specs::Fields::field_of, crate::specs::Fields::rest_of))]
    pub fn field(&mut self) -> Option<&'a [u8]>
        ensures found { IsSome result ↔ (field_of self.old.text.now ≢ []) }
        ensures value { IfSome result (λ f. f.now ≡ field_of self.old.text.now) }
        ensures rest { self.new.text.now ≡ rest_of self.old.text.now }
        ensures left { self.new.numbers ≡ self.old.numbers }
    {
        let text = &self.text[blanks(self.text)..];
        let (field, rest) = text.split_at(field_length(text));
        self.text = rest;
        if field.is_empty() { None } else { Some(field) }
    }

    // Whether no field is left.
    pub fn is_done(&self) -> bool
        ensures { result ≡ list_all is_blank self.now.text.now }
    {
        self.text.iter().all(|b| is_blank(*b))
    }
}
