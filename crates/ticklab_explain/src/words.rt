// Words, and what stands beside them in rows.
ghost use Rattle.std.specs.Prelude.{◌≡◌, map};
ghost use Rattle.std.specs.List.{list_any};
ghost use Rattle.std.specs.Str.{bytes_eq};
ghost use Rattle.ticklab_explain.specs.Pieces.{beside, is_one_of};
ghost use Rattle.ticklab_explain.specs.Rows.{words_of};

/// Whether a word is one of these.
pub fn is_one_of(word: &str, words: &[&str]) -> bool
    ensures { result ≡ is_one_of word.now (words_of words.now) }
{
    is_among(word, words)
}

fn is_among(word: &str, words: &[&str]) -> bool
    ensures { result ≡ list_any (λ one. bytes_eq one.now word.now) words.now }
{
    words.iter().any(|one| *one == word)
}

/// What stands beside a word in these rows; another text where none has the word.
pub fn beside<'a>(rows: &[(&str, &'a str)], word: &str, other: &'a str) -> &'a str
    ensures { result.now ≡ beside (map (λ row. (row.0.now, row.1.now)) rows.now) word.now other.now }
{
    for (key, told) in rows {
        if word == *key {
            return told;
        }
    }
    other
}
