//! Words of a line, and lines of a text.

ghost use Rattle.std.specs.Prelude.{◌≡◌, ◌+◌, ◌<◌, ◌≤◌, ◌∷◌, [], length, take, drop, IsTrue, MatchOption};
ghost use Rattle.cp_text.specs.Words.{is_blank, words_of, after_word, starts_word, without_return, lines_of, bare_lines};

/// A space or a tab.
fn is_blank_byte(b: u8) -> bool
    ensures { result ≡ is_blank b }
{
    b == b' ' || b == b'\t'
}

/// The line from its first word on.
fn skip_blanks(line: &[u8]) -> &[u8]
    ensures words { words_of result.now ≡ words_of line.now }
    ensures first { IsTrue (starts_word result.now) }
{
    for (i, b) in line.iter().enumerate() {
        if !is_blank_byte(*b) {
            return &line[i..];
        }
    }
    &line[line.len()..]
}

/// Where the word ends that the line begins with.
fn word_end(line: &[u8]) -> usize
    requires { IsTrue (starts_word line.now) }
    ensures bound { result ≤ length line.now }
    ensures words { words_of line.now ≡ after_word (take result line.now) (words_of (drop result line.now)) }
    ensures none { result ≡ 0 → line.now ≡ [] }
{
    for (i, b) in line.iter().enumerate() {
        if is_blank_byte(*b) {
            return i;
        }
    }
    line.len()
}

/// The first word of a line, and the rest of the line.
pub fn next_word(line: &[u8]) -> Option<(&[u8], &[u8])>
    ensures { MatchOption result
        (words_of line.now ≡ [])
        (λ found. words_of line.now ≡ found.0.now ∷ words_of found.1.now) }
{
    let line = skip_blanks(line);
    let end = word_end(line);
    if end == 0 {
        return None;
    }
    Some((&line[..end], &line[end..]))
}

/// Where the first line of a text ends.
fn line_end(text: &[u8]) -> usize
    ensures bound { result ≤ length text.now }
    ensures feed { result < length text.now
        → lines_of text.now ≡ take result text.now ∷ lines_of (drop (result + 1) text.now) }
    ensures last { result ≡ length text.now → lines_of text.now ≡ after_word text.now [] }
{
    for (i, b) in text.iter().enumerate() {
        if *b == b'\n' {
            return i;
        }
    }
    text.len()
}

fn strip_return(line: &[u8]) -> &[u8]
    ensures { result.now ≡ without_return line.now }
{
    if line.is_empty() || line[line.len() - 1] != b'\r' {
        return line;
    }
    &line[..line.len() - 1]
}

/// The first line of a text without its end, and the rest of the text.
pub fn next_line(text: &[u8]) -> Option<(&[u8], &[u8])>
    ensures { MatchOption result
        (bare_lines text.now ≡ [])
        (λ found. bare_lines text.now ≡ found.0.now ∷ bare_lines found.1.now) }
{
    if text.is_empty() {
        return None;
    }
    let end = line_end(text);
    if end < text.len() {
        Some((strip_return(&text[..end]), &text[end + 1..]))
    } else {
        Some((strip_return(text), &text[text.len()..]))
    }
}
