// What a worker asks before each turn.

/// Says before each turn of a worker whether it may be made. The turns of a run are counted from 0.
pub trait Gate {
    ghost use Rattle.std.specs.Prelude.{ℕ, Bool};

    /// The answers that it may give to a worker at a turn.
    ghost may: { Self → ℕ → ℕ → Bool → Type 0 };

    fn pass(&self, worker: u32, turn: u64) -> bool
        ensures { may self.now worker turn result };
}

/// A gate that lets every turn be made.
pub struct OpenGate;

impl Gate for OpenGate {
    ghost use Rattle.std.specs.Prelude.{◌≡◌, true};

    ghost may = { λ gate worker turn said. said ≡ true };

    fn pass(&self, _worker: u32, _turn: u64) -> bool {
        true
    }
}
