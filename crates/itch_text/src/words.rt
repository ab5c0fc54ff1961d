//! The words of a line.
ghost use Rattle.std.specs.Prelude.{◌≡◌, ◌≢◌, ◌<◌, ◌≤◌, length, take, drop, slice_index, [], ◌∷◌, MatchOption};
ghost use Rattle.std.specs.List.{position};
ghost use Rattle.itch_text.specs.Characters.{space};
ghost use Rattle.itch_text.specs.Words.{is_no_space, words};
ghost use Rattle.itch_text.specs.Parsing.{kept};

// The index of the first byte of a line that is no space, where it has one.
fn word_start(line: &[u8]) -> Option<usize>
    ensures { result ≡ position is_no_space line.now }
{
    line.iter().position(|byte| *byte != b' ')
}

// A line without the spaces that it begins with.
#[tactic(auto, using(crate::proofs::FirstWord::skipping))]
fn trim_spaces(line: &[u8]) -> &[u8]
    ensures words { words result.now ≡ words line.now }
    ensures first { 0 < length result.now → slice_index result.now 0 ≢ space }
{
    match word_start(line) {
        Some(start) => &line[start..],
        None => &[],
    }
}

// The number of bytes of the first word of a line that begins with a word.
#[tactic(auto, using(crate::proofs::FirstWord::cutting))]
fn word_length(line: &[u8]) -> usize
    requires word { 0 < length line.now }
    requires first { slice_index line.now 0 ≢ space }
    ensures positive { 0 < result }
    ensures within { result ≤ length line.now }
    ensures words { words line.now ≡ kept (take result line.now) (words (drop result line.now)) }
{
    let mut quoted = false;
    for index in 0..line.len() {
        let byte = line[index];
        if !quoted && byte == b' ' {
            return index;
        }
        if byte == b'"' {
            quoted = !quoted;
        }
    }
    line.len()
}

/// The first word of a line and what follows it, or `None` where the line has no word. The form of a line is of this
/// project.
#[tactic(auto, using(crate::proofs::FirstWord::splitting))]
pub fn split_word(line: &[u8]) -> Option<(&[u8], &[u8])>
    ensures { MatchOption result
        (words line.now ≡ [])
        (λ parts. words line.now ≡ parts.0.now ∷ words parts.1.now) }
{
    let line = trim_spaces(line);
    if line.is_empty() {
        return None;
    }
    let length = word_length(line);
    Some(line.split_at(length))
}

/// The only word of a line, or `None` where it has none or more than one.
pub fn only_word(line: &[u8]) -> Option<&[u8]>
    ensures { MatchOption result
        (length (words line.now) ≢ 1)
        (λ word. words line.now ≡ word.now ∷ []) }
{
    let (word, rest) = split_word(line)?;
    match split_word(rest) {
        Some(_) => None,
        None => Some(word),
    }
}
