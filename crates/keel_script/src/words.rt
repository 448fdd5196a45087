// The words of a line.
ghost use Rattle.std.specs.Prelude.{◌≡◌, ◌≢◌, ℕ, ◌<◌, ◌≤◌, ◌↔◌, length, slice_index, [], ◌∷◌, IsTrue, MatchOption};
ghost use Rattle.keel_script.specs.Words.{words_of, IsBlank};

use memchr::memchr;

/// Whether a line says nothing and has no answer: it is empty, has spaces alone, or begins with `#`.
pub fn is_blank(line: &[u8]) -> bool
    ensures { IsTrue result ↔ IsBlank line.now }
{
    match line {
        [] => true,
        [b'#', ..] => true,
        _ => line.iter().all(|byte| *byte == b' '),
    }
}

// The first word, and what follows it.
pub(crate) fn next_word(line: &[u8]) -> Option<(&[u8], &[u8])>
    ensures { MatchOption result (words_of line.now ≡ []) (λ x. words_of line.now ≡ x.0.now ∷ words_of x.1.now) }
{
    let (_, rest) = line.split_at(word_start(line));
    if rest.is_empty() {
        return None;
    }
    Some(rest.split_at(word_end(rest)))
}

// Where the first word begins, or the length where there is none.
fn word_start(line: &[u8]) -> usize
    ensures within { result ≤ length line.now }
    ensures before { (k : ℕ) → k < result → slice_index line.now k ≡ 32 }
    ensures there { result < length line.now → slice_index line.now result ≢ 32 }
{
    for (place, byte) in line.iter().enumerate() {
        if *byte != b' ' {
            return place;
        }
    }
    line.len()
}

// Where the word ends with which a line begins.
fn word_end(line: &[u8]) -> usize
    ensures within { result ≤ length line.now }
    ensures before { (k : ℕ) → k < result → slice_index line.now k ≢ 32 }
    ensures there { result < length line.now → slice_index line.now result ≡ 32 }
{
    match memchr(b' ', line) {
        Some(place) => place,
        None => line.len(),
    }
}
