// The lines of a text, and the words of a line.
ghost use Rattle.std.specs.Prelude.{◌≡◌, ◌<◌, ◌≤◌, ◌+◌, ◌∷◌, [], not, ◌==◌, length, MatchOption, IfNone, IfSome};
ghost use Rattle.std.specs.List.{list_all, prefix_len};
ghost use Rattle.std.specs.Str.Lines.{lines, strip_carriage_return};
ghost use Rattle.mem_image.specs.Lines as spec;

/// Whether a byte parts the words of a line.
fn is_blank(byte: u8) -> bool
    ensures { result ≡ spec.is_blank byte }
{
    byte == b' ' || byte == b'\t'
}

/// How many blanks come first.
fn blanks(bytes: &[u8]) -> usize
    ensures value { result ≡ prefix_len spec.is_blank bytes.now }
    ensures within { result ≤ length bytes.now }
{
    let mut end = 0;
    while end < bytes.len() && is_blank(bytes[end]) {
        end += 1;
    }
    end
}

/// How many bytes come before the first blank: all where there is none.
fn word_length(bytes: &[u8]) -> usize
    ensures value { result ≡ prefix_len (λ b. not (spec.is_blank b)) bytes.now }
    ensures within { result ≤ length bytes.now }
{
    let mut end = 0;
    while end < bytes.len() && !is_blank(bytes[end]) {
        end += 1;
    }
    end
}

/// How many bytes come before the first line feed: all where there is none.
fn line_length(bytes: &[u8]) -> usize
    ensures value { result ≡ prefix_len (λ b. not (b == 10)) bytes.now }
    ensures within { result ≤ length bytes.now }
{
    let mut end = 0;
    while end < bytes.len() && bytes[end] != b'\n' {
        end += 1;
    }
    end
}

/// Whether a line is white space alone.
fn is_white(line: &[u8]) -> bool
    ensures { result ≡ list_all spec.is_white line.now }
{
    line.iter().all(|&byte| is_blank(byte) || byte == b'\r')
}

/// The first word of a line and what stands behind it, if there is a word.
pub(crate) fn next_word(line: &[u8]) -> Option<(&[u8], &[u8])>
    ensures { MatchOption result (spec.words line.now ≡ []) (λ p. (spec.words line.now ≡ p.0.now ∷ spec.words p.1.now) × (length p.1.now < length line.now)) }
{
    let (_, text) = line.split_at(blanks(line));
    if text.is_empty() {
        return None;
    }
    Some(text.split_at(word_length(text)))
}

/// A line without the carriage return at its end, if it has one.
fn without_return(line: &[u8]) -> &[u8]
    ensures value { result.now ≡ strip_carriage_return line.now }
    ensures within { length result.now ≤ length line.now }
{
    match line {
        [front @ .., b'\r'] => front,
        _ => line,
    }
}

/// The first line of a text, without its ending, and what stands behind it, if there is a line.
fn cut_line(bytes: &[u8]) -> Option<(&[u8], &[u8])>
    ensures { MatchOption result (bytes.now ≡ []) (λ p. (lines bytes.now ≡ p.0.now ∷ lines p.1.now) × (length p.1.now < length bytes.now) × (length p.0.now ≤ length bytes.now)) }
{
    if bytes.is_empty() {
        return None;
    }
    let (line, behind) = bytes.split_at(line_length(bytes));
    if behind.is_empty() {
        return Some((bytes, behind));
    }
    let (_, rest) = behind.split_at(1);
    Some((without_return(line), rest))
}

/// What is left of a text, behind so many lines.
#[derive(Clone, Copy)]
pub(crate) struct Rest<'a> {
    pub bytes: &'a [u8],
    pub lines: u32,
}

/// Takes off the next line that isn't white space alone, if there is one.
pub(crate) fn next_line<'a>(rest: &mut Rest<'a>) -> Option<&'a [u8]>
    requires { rest.old.lines + length rest.old.bytes.now < 4294967295 }
    ensures line { let before = spec.written_behind rest.old.lines (lines rest.old.bytes.now) in
        let after = spec.written_behind rest.new.lines (lines rest.new.bytes.now) in
        MatchOption result (before ≡ []) (λ line. before ≡ spec.numbered rest.new.lines line.now ∷ after) }
    ensures counted { rest.new.lines + length (lines rest.new.bytes.now) ≡ rest.old.lines + length (lines rest.old.bytes.now) }
    ensures within { rest.new.lines + length rest.new.bytes.now ≤ rest.old.lines + length rest.old.bytes.now }
    ensures short { IfSome result (λ line. length line.now ≤ length rest.old.bytes.now) }
    ensures end { IfNone result (rest.new.bytes.now ≡ []) }
{
    while let Some((line, bytes)) = cut_line(rest.bytes) {
        *rest = Rest {
            bytes,
            lines: rest.lines + 1,
        };
        if !is_white(line) {
            return Some(line);
        }
    }
    None
}
