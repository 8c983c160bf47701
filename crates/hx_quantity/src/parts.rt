// The parts of a text.
ghost use Rattle.std.specs.Prelude.{◌≡◌, ◌≤◌, true, length, not, position, take, drop};
ghost use Rattle.std.specs.List.{list_all};
ghost use Rattle.hx_object.specs.Names.{is_digit};
ghost use Rattle.hx_quantity.specs.Inside.{written};
ghost use Rattle.hx_object.specs.Quantities.{digits_len, written_of};

/// The digits before the point, those behind it, and what follows.
#[derive(Clone, Copy)]
pub(crate) struct Parts<'a> {
    pub whole: &'a [u8],
    pub fraction: &'a [u8],
    pub suffix: &'a [u8],
}

pub(crate) fn parts_of(text: &[u8]) -> Parts<'_>
    ensures written { written result ≡ written_of text.now }
    ensures whole { list_all is_digit result.whole.now ≡ true }
    ensures fraction { list_all is_digit result.fraction.now ≡ true }
{
    let (whole, rest) = cut_digits(text);
    match rest {
        [b'.', behind @ ..] => {
            let (fraction, suffix) = cut_digits(behind);
            Parts {
                whole,
                fraction,
                suffix,
            }
        }
        _ => Parts {
            whole,
            fraction: &[],
            suffix: rest,
        },
    }
}

/// The digits that a text begins with, and what follows them.
pub(crate) fn cut_digits(text: &[u8]) -> (&[u8], &[u8])
    ensures first { result.0.now ≡ take (digits_len text.now) text.now }
    ensures behind { result.1.now ≡ drop (digits_len text.now) text.now }
    ensures digits { list_all is_digit result.0.now ≡ true }
{
    text.split_at(digits_len(text))
}

fn digits_len(text: &[u8]) -> usize
    ensures len { result ≡ digits_len text.now }
    ensures within { result ≤ length text.now }
{
    match first_other(text) {
        Some(len) => len,
        None => text.len(),
    }
}

/// The place of the first byte that is no digit.
fn first_other(text: &[u8]) -> Option<usize>
    ensures { result ≡ position (λ byte. not (is_digit byte)) text.now }
{
    text.iter().position(|byte| !byte.is_ascii_digit())
}
