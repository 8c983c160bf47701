// What is printed is read again.
ghost use Rattle.std.specs.Prelude.{◌≡◌, ◌≢◌, ◌≤◌, ◌<◌, ◌^◌, ◌⊎◌, ◌%◌, ℕ, Ok, Err, Some};
ghost use Rattle.hx_object.specs.declared.quantity.QuantityFault.TheVariants.{TooLong};
ghost use Rattle.hx_object.specs.Quantities.{quantity_of, quantity_text};
ghost use Rattle.hx_quantity.specs.Printed.{printed_amount};

/// The text of an amount is read as that amount, unless it has more than 18 digits: those of amounts from 10^18 that aren't whole units are too many for [`read`](crate::read). [`read_printed`](crate::read_printed) reads the text of each amount that 128 bits hold.
pub fn law_of_quantities()
    ensures read { (amount : ℕ) → amount < 2 ^ 63 → (amount < 10 ^ 18) ⊎ (amount % 1000 ≡ 0) → quantity_of (quantity_text amount) ≡ Ok amount }
    ensures too_long { (amount : ℕ) → 10 ^ 18 ≤ amount → amount < 2 ^ 63 → amount % 1000 ≢ 0 → quantity_of (quantity_text amount) ≡ Err TooLong }
    ensures printed { (amount : ℕ) → amount < 2 ^ 128 → printed_amount (quantity_text amount) ≡ Some amount }
{}
