// What the suffixes stand for.
ghost use Rattle.std.specs.Prelude.{◌≡◌, ◌<◌, IfSome, map, option_map};
ghost use Rattle.std.specs.List.{AllByRecursion};
ghost use Rattle.std.specs.Map.{lookup};
ghost use Rattle.std.specs.Str.{bytes_eq};
ghost use Rattle.hx_quantity.specs.Inside.{times};
ghost use Rattle.hx_object.specs.Quantities.{factor_of};

/// What a number is times: `times / over`.
#[derive(Clone, Copy)]
pub(crate) struct Factor {
    pub times: u64,
    pub over: u32,
}

/// The suffixes, each with what a number is times and over.
static FACTORS: [(&[u8], u64, u32); 16] = [
    (b"", 1, 1),
    (b"n", 1, 1_000_000_000),
    (b"u", 1, 1_000_000),
    (b"m", 1, 1_000),
    (b"k", 1_000, 1),
    (b"M", 1_000_000, 1),
    (b"G", 1_000_000_000, 1),
    (b"T", 1_000_000_000_000, 1),
    (b"P", 1_000_000_000_000_000, 1),
    (b"E", 1_000_000_000_000_000_000, 1),
    (b"Ki", 1 << 10, 1),
    (b"Mi", 1 << 20, 1),
    (b"Gi", 1 << 30, 1),
    (b"Ti", 1 << 40, 1),
    (b"Pi", 1 << 50, 1),
    (b"Ei", 1 << 60, 1),
];

/// What a suffix stands for.
#[tactic(auto, unfolding(hx_object::specs::Quantities::factor_of))]
pub(crate) fn factor_of(suffix: &[u8]) -> Option<Factor>
    ensures factor { option_map times result ≡ factor_of suffix.now }
    ensures some { IfSome result (λ factor. 0 < factor.over) }
{
    factor_in(&FACTORS, suffix)
}

/// What the first row with the suffix has.
fn factor_in(rows: &[(&'static [u8], u64, u32)], suffix: &[u8]) -> Option<Factor>
    requires { AllByRecursion (λ row. 0 < row.2) rows.now }
    ensures factor { option_map times result ≡ lookup (bytes_eq suffix.now) (map (λ row. (row.0.now, times (record { times = row.1; over = row.2 }))) rows.now) }
    ensures some { IfSome result (λ factor. 0 < factor.over) }
{
    for row in rows {
        if suffix == row.0 {
            return Some(Factor {
                times: row.1,
                over: row.2,
            });
        }
    }
    None
}
