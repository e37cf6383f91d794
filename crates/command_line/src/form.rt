//! How a request or a statement is written.

/// How a request or a statement is written.
pub(crate) struct Form {
    /// Its first word.
    pub word: &'static str,
    pub usage: &'static str,
}

/// How the one of these is written that begins with this word, if there is one.
pub(crate) fn usage_of(forms: &[Form], word: &str) -> Option<&'static str> {
    for form in forms {
        if form.word == word {
            return Some(form.usage);
        }
    }
    None
}
