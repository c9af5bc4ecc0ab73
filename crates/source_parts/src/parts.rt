// Cutting a source at its first line `---`.
ghost use Rattle.std.specs.Prelude.{◌≡◌, ◌+◌, ◌<◌, ◌≤◌, ◌∷◌, not, ◌==◌, length, take, drop};
ghost use Rattle.std.specs.List.{prefix_len};
ghost use Rattle.source_parts.specs.Parts as spec;

/// The two parts of a source.
#[derive(Clone, Copy)]
pub struct Parts<'a> {
    /// What stands before the first line `---`: the text of a module. The whole source where it has no such line.
    pub text: &'a [u8],
    /// What stands behind that line: the text of an image. Empty where there is no such line.
    pub image: &'a [u8],
}

/// Whether a line, with its line feed if it has one, is `---`, with or without a carriage return at its end.
#[tactic(auto, unfolding(crate::specs::Parts::is_mark))]
fn is_mark(line: &[u8]) -> bool
    ensures { result ≡ spec.is_mark line.now }
{
    matches!(line, b"---" | b"---\r" | b"---\n" | b"---\r\n")
}

/// How many bytes come before the first line feed: all where there is none.
fn bare_length(bytes: &[u8]) -> usize
    ensures value { result ≡ prefix_len (λ b. not (b == 10)) bytes.now }
    ensures within { result ≤ length bytes.now }
{
    let mut end = 0;
    while end < bytes.len() && bytes[end] != b'\n' {
        end += 1;
    }
    end
}

/// How many bytes the first line has, its line feed included.
fn line_length(bytes: &[u8]) -> usize
    requires { 0 < length bytes.now }
    ensures first { spec.full_lines bytes.now ≡ take result bytes.now ∷ spec.full_lines (drop result bytes.now) }
    ensures some { 0 < result }
    ensures within { result ≤ length bytes.now }
{
    let end = bare_length(bytes);
    if end < bytes.len() { end + 1 } else { end }
}

/// Cuts a source at its first line `---`, which may have a carriage return at its end and may lack its line feed.
pub fn split(source: &[u8]) -> Parts<'_>
    ensures text { result.text.now ≡ spec.text_part source.now }
    ensures image { result.image.now ≡ spec.image_part source.now }
    ensures within { length result.text.now + length result.image.now ≤ length source.now }
{
    let mut at = 0;
    while at < source.len() {
        let (text, rest) = source.split_at(at);
        let (line, image) = rest.split_at(line_length(rest));
        if is_mark(line) {
            return Parts { text, image };
        }
        at += line.len();
    }
    let (text, image) = source.split_at(at);
    Parts { text, image }
}
