// The tokens of a selector.

/// What a token is.
#[derive(Clone, Copy)]
pub(crate) enum TokenKind {
    Comma,
    Open,
    Close,
    /// `!`
    Bang,
    /// `=`
    Equal,
    /// `==`
    EqualEqual,
    /// `!=`
    NotEqual,
    /// `<` or `>`
    Angle,
    Word,
}

/// A token with its place, or the end of the text.
#[derive(Clone, Copy)]
pub(crate) struct Token<'a> {
    pub kind: Option<TokenKind>,
    pub at: usize,
    pub word: &'a str,
}
