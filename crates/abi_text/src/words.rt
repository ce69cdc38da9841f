//! The words of a line.

ghost use Rattle.std.specs.Prelude.{◌≡◌, ◌≢◌, ◌<◌, ◌≤◌, ℕ, length, slice_index, MatchOption, IfSome, take, drop, [], ◌∷◌, true, false};
ghost use Rattle.abi_text.specs.Words.{is_plain, words_of};

fn is_plain(byte: u8) -> bool
    ensures { result ≡ is_plain byte }
{
    byte != b' ' && byte != b'(' && byte != b')'
}

/// The line from its first byte on that isn't a space.
fn after_spaces(line: &[u8]) -> &[u8]
    ensures same { words_of result.now ≡ words_of line.now }
    ensures begins { slice_index result.now 0 ≢ 32 }
    ensures number_u32 { length result.now ≤ length line.now }
{
    for (index, byte) in line.iter().enumerate() {
        if *byte != b' ' {
            return &line[index..];
        }
    }
    &[]
}

/// How many bytes of a word the line begins with.
fn run_length(line: &[u8]) -> usize
    ensures within { result ≤ length line.now }
    ensures plain { (k : ℕ) → k < result → is_plain (slice_index line.now k) ≡ true }
    ensures ends { result < length line.now → is_plain (slice_index line.now result) ≡ false }
{
    for (index, byte) in line.iter().enumerate() {
        if !is_plain(*byte) {
            return index;
        }
    }
    line.len()
}

/// How many bytes the line's first word has.
fn first_length(line: &[u8]) -> usize
    requires some { 0 < length line.now }
    requires begins { slice_index line.now 0 ≢ 32 }
    ensures first { words_of line.now ≡ take result line.now ∷ words_of (drop result line.now) }
    ensures some { 0 < result }
    ensures within { result ≤ length line.now }
{
    if is_plain(line[0]) {
        run_length(line)
    } else {
        1
    }
}

/// The line's first word, and what follows it. None where only spaces are left. Spaces part words, and each parenthesis
/// is a word of its own.
pub fn next_word(line: &[u8]) -> Option<(&[u8], &[u8])>
    ensures words { MatchOption result (words_of line.now ≡ []) (λ p.
        words_of line.now ≡ p.0.now ∷ words_of p.1.now) }
    ensures shorter { IfSome result (λ p. length p.1.now < length line.now) }
{
    let line = after_spaces(line);
    if line.is_empty() {
        return None;
    }
    let (word, rest) = line.split_at(first_length(line));
    Some((word, rest))
}
