// The asks, one after the other.
ghost use Rattle.std.specs.Prelude.{◌≡◌, IfOk, IfSome, OnErr};
ghost use Rattle.hx_model.specs.Serving.{IsServedAsk};
ghost use Rattle.hx_gen.specs.Asked.{asks_of, IsNext};

use crate::step::Step;
use hx_model::Ask;
use hx_object::NoMemory;
use std::alloc::Global;
use std::marker::Model;

/// The asks that make a cluster: the namespaces from the first on, each but the first with its parent, and then a Role and a Pod in each.
///
/// A namespace's parent is drawn among those before it. The same number draws the same parents.
///
/// Contracts see the asks that are left.
pub struct Generated {
    alloc: Global,
    count: u32,
    step: Step,
}

impl Drop for Generated {
    fn drop(self) {
        let Generated {
            alloc: _,
            count: _,
            step: _,
        } = self;
    }
}

impl Model for Generated {
    ghost use Rattle.std.specs.Prelude.{List};
    ghost use Rattle.hx_model.specs.declared.ask.Ask.{Ask};
    ghost use Rattle.hx_gen.specs.Left.{IsWithin, left_at};

    ghost Value = { List Ask };

    ghost view = { λ g. left_at g.count g.step };

    ghost invariant = { λ g. IsWithin g.count g.step };
}

impl Generated {
    /// The asks for `count` namespaces, whose parents are drawn from a number.
    pub fn new(alloc: Global, number: u32, count: u32) -> Generated
        ensures { result ≡ asks_of number count }
    {
        Generated {
            alloc,
            count,
            step: Step::first(number, count),
        }
    }

    /// The next ask. None is left behind `None`, and a call that fails leaves them all.
    pub fn next_ask(&mut self) -> Result<Option<Ask>, NoMemory>
        ensures next { IfOk result (λ next. IsNext next self.old self.new) }
        ensures served { IfOk result (λ next. IfSome next IsServedAsk) }
        ensures same { OnErr result (self.new ≡ self.old) }
    {
        let next = self.step.ask(self.alloc)?;
        self.step = self.step.behind(self.count);
        Ok(next)
    }
}
