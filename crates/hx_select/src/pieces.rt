// The pieces of a text between its commas.
ghost use Rattle.std.specs.Prelude.{◌≡◌, ◌∷◌, ◌<◌, [], IfSome, MatchOption, length};
ghost use Rattle.hx_select.specs.TreeSelects.{pieces_of, stripped, without_leading, without_trailing};

/// What stands before the first comma, and what stands behind it. `None` where there is no comma.
pub(crate) fn cut_piece(text: &str) -> Option<(&str, &str)>
    ensures pieces { MatchOption result (pieces_of text.now ≡ stripped text.now ∷ []) (λ cut. pieces_of text.now ≡ stripped cut.0.now ∷ pieces_of cut.1.now) }
    ensures fewer { IfSome result (λ cut. length cut.1.now < length text.now) }
{
    text.split_once(',')
}

/// The text without the spaces around it.
pub(crate) fn stripped(text: &str) -> &str
    ensures { result.now ≡ stripped text.now }
{
    without_trailing(without_leading(text))
}

fn without_leading(text: &str) -> &str
    ensures { result.now ≡ without_leading text.now }
{
    let mut left = text;
    while let Some(rest) = left.strip_prefix(' ') {
        left = rest;
    }
    left
}

fn without_trailing(text: &str) -> &str
    ensures { result.now ≡ without_trailing text.now }
{
    let mut left = text;
    while let Some(front) = left.strip_suffix(' ') {
        left = front;
    }
    left
}
