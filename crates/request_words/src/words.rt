//! The words of a line.
ghost use Rattle.std.specs.Prelude.{◌≡◌, ◌==◌, ◌<◌, ◌≤◌, not, [], ◌∷◌, length, position, true, IsTrue, MatchOption, IfSome};
ghost use Rattle.std.specs.List.{All, list_all};
ghost use Rattle.request_words.specs.FirstWords.{IsWord, after_word, first_word};
ghost use Rattle.request_words.specs.Words.{is_comment, is_printable, line_words, text_lines};

use memchr::memchr;

// How many bytes a short text has at most.
const SHORT_TEXT: usize = 64;

// Where a byte first stands in a text, if it stands there.
fn first_place(byte: u8, text: &[u8]) -> Option<usize>
    ensures place { result ≡ position (λ b. b == byte) text.now }
    ensures within { IfSome result (λ place. place < length text.now) }
{
    memchr(byte, text)
}

/// The first line of a text, and what follows its end, if it has one.
pub fn next_line(text: &[u8]) -> (&[u8], Option<&[u8]>)
    ensures lines { MatchOption result.1 (text_lines text.now ≡ result.0.now ∷ [])
        (λ rest. text_lines text.now ≡ result.0.now ∷ text_lines rest.now) }
    ensures shorter { IfSome result.1 (λ rest. length rest.now < length text.now) }
{
    match first_place(b'\n', text) {
        Some(end) => (&text[..end], Some(&text[end + 1..])),
        None => (text, None),
    }
}

// Where the first word of a line begins, if the line has one.
fn word_start(line: &[u8]) -> Option<usize>
    ensures place { result ≡ position (λ b. not (b == 32)) line.now }
    ensures within { IfSome result (λ start. start ≤ length line.now) }
{
    line.iter().position(|byte| *byte != b' ')
}

// Where the first space of a text is, if it has one, looking at byte after byte.
fn near_space(text: &[u8]) -> Option<usize>
    ensures place { result ≡ position (λ b. b == 32) text.now }
    ensures within { IfSome result (λ place. place < length text.now) }
{
    text.iter().position(|byte| *byte == b' ')
}

// Where the first space of a text is, if it has one. Most lines are short, and a search costs as much as some bytes looked at one by one.
fn first_space(text: &[u8]) -> Option<usize>
    ensures place { result ≡ position (λ b. b == 32) text.now }
    ensures within { IfSome result (λ place. place < length text.now) }
{
    if text.len() <= SHORT_TEXT {
        near_space(text)
    } else {
        first_place(b' ', text)
    }
}

// The word with which a text begins, and what follows the space behind it.
fn split_word(text: &[u8]) -> (&[u8], &[u8])
    ensures word { result.0.now ≡ first_word text.now }
    ensures rest { line_words result.1.now ≡ line_words (after_word text.now) }
{
    match first_space(text) {
        Some(end) => (&text[..end], &text[end + 1..]),
        None => (text, &text[text.len()..]),
    }
}

/// A line from its first word on, if it has one.
pub fn from_word(line: &[u8]) -> Option<&[u8]>
    ensures { MatchOption result (line_words line.now ≡ [])
        (λ text. line_words line.now ≡ first_word text.now ∷ line_words (after_word text.now)) }
{
    let start = word_start(line)?;
    Some(&line[start..])
}

/// The first word of a line, and what follows it.
pub fn next_word(line: &[u8]) -> Option<(&[u8], &[u8])>
    ensures { MatchOption result (line_words line.now ≡ [])
        (λ r. line_words line.now ≡ r.0.now ∷ line_words r.1.now) }
{
    let text = from_word(line)?;
    Some(split_word(text))
}

/// What follows this word, which has a byte and no space, where a line begins with it.
#[inline(always)]
pub fn strip_word<'a>(line: &'a [u8], word: &[u8]) -> Option<&'a [u8]>
    requires { IsWord word.now }
    ensures { IfSome result (λ rest. line_words line.now ≡ word.now ∷ line_words rest.now) }
{
    let behind = line.strip_prefix(word)?;
    let rest = behind.strip_prefix(b" ")?;
    Some(rest)
}

/// Whether a line is a comment.
pub fn is_comment(line: &[u8]) -> bool
    ensures { result ≡ is_comment line.now }
{
    line.first() == Some(&b'#')
}

/// Whether each byte is printable ASCII. No byte ends the loop early, so that it looks at many in one step.
pub fn is_printable(line: &[u8]) -> bool
    ensures { result ≡ list_all is_printable line.now }
{
    let mut all = true;
    for byte in line {
        all &= b' ' <= *byte && *byte <= b'~';
    }
    all
}

/// Whether each byte of a text is printable ASCII or ends a line. No byte ends the loop early, so that it looks at many in one step.
pub fn has_printable_lines(text: &[u8]) -> bool
    ensures { IsTrue result → All (λ line. list_all is_printable line ≡ true) (text_lines text.now) }
{
    let mut all = true;
    for byte in text {
        all &= (b' ' <= *byte && *byte <= b'~') || *byte == b'\n';
    }
    all
}
