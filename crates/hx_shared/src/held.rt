// What lies under the turn.
use crate::call::Call;
use hx_core::Cluster;
use hx_ports::Keeper;
use hx_turn::{Entry, Stands};
use std::marker::{Brand, PhantomData};

/// A cluster in a box, which is all that a turn moves. It stands for the history of the calls that were made of it.
pub struct Held<K: Keeper> {
    pub(crate) cluster: Box<Cluster<K>>,
}

impl<K: Keeper> Stands<Call, Cluster<K>> for Held<K> {
    ghost use Rattle.hx_shared.specs.Calls.{StandsAt};

    ghost opening = { λ held. held.cluster.value };

    ghost stands = { λ held opening log. StandsAt opening log held.cluster.value };
}

/// The call that a turn is taken for, which the caller of `leave` picks.
pub trait Naming {
    ghost use Rattle.hx_shared.specs.declared.call.Call.{Call};

    ghost call: { Call };
}

impl Naming for Brand {
    ghost use Rattle.hx_shared.specs.declared.call.Call.TheVariants as call_of;

    ghost call = { call_of.Busy 0 0 };
}

/// The entry of a call that is named.
pub struct Named<J> {
    of: PhantomData<J>,
}

impl<J: Naming> Entry<Call> for Named<J> {
    ghost entry = { J.call };
}
