// Why a text isn't read as a quantity.

/// Why a text isn't read as a quantity. The reader is `hx_quantity`'s.
#[derive(Clone, Copy)]
pub enum QuantityFault {
    /// It isn't a number in decimal with one of the suffixes or without one. Signs, exponents and spaces aren't taken.
    Syntax,
    /// More than 18 digits stand before the point, or more than 9 behind it.
    TooLong,
    /// The amount in thousandths is over 2^63 - 1.
    TooLarge,
}
