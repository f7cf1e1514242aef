//! The words of `keep`.
ghost use Rattle.std.specs.Prelude.{◌≡◌, Some, None, MatchOption};
ghost use Rattle.pj_top.specs.Words.{keep_of};

/// The path of the store, where the words are those of `keep`.
pub(crate) fn kept_path(words: &[String]) -> Option<&str>
    ensures { MatchOption result (keep_of words.now ≡ None) (λ path. keep_of words.now ≡ Some path.now) }
{
    match words {
        [word, path] if word.as_str() == "keep" => Some(path.as_str()),
        [word, path, one] if word.as_str() == "keep" && one.as_str() == "one" => Some(
            path.as_str(),
        ),
        _ => None,
    }
}
