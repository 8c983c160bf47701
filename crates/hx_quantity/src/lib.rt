//! Quantities that quotas limit, as the Kubernetes API writes them (`resource.Quantity`), in thousandths.
//!
//! [`read`] takes a number in decimal, which may have a point, and a suffix. Signs and exponents, which the API has too, aren't served.
//! [`print`] writes a sum of amounts, and [`read_printed`] reads it again.
#![tactic(auto)]

mod factor;
mod laws;
mod parts;
mod printed;
mod quantity;

pub use laws::law_of_quantities;
pub use printed::{print, read_printed};
pub use quantity::read;
