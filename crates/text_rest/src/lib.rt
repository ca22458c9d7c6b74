// Text fields, which end at their first zero: whether anything else stands after it. Added by document 02, No. 12.
#![tactic(auto)]

ghost use Rattle.std.specs.Prelude.{◌≡◌, take, drop};
ghost use Rattle.text_rest.specs.Rest.{rest_of};

// Whether the text of so many bytes at this place of s has a byte after its first zero that is not zero; past the end of s there is
// nothing.
pub fn has_rest(s: &[u8], at: u64, width: usize) -> bool
    ensures { result ≡ rest_of (take width (drop at s.now)) }
{
    rest_in(text_at(s, at, width))
}

// The bytes of such a text, as far as s goes.
fn text_at(s: &[u8], at: u64, width: usize) -> &[u8]
    ensures { result.now ≡ take width (drop at s.now) }
{
    if (s.len() as u64) < at {
        return &s[..0];
    }
    let from = at as usize;
    if s.len() - from < width {
        return &s[from..];
    }
    &s[from..from + width]
}

// Whether a text has a byte after its first zero that is not zero.
fn rest_in(text: &[u8]) -> bool
    ensures { result ≡ rest_of text.now }
{
    match text.iter().position(|b| *b == 0) {
        Some(end) => text[end..].iter().any(|b| *b != 0),
        None => false,
    }
}
