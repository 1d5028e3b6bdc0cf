//! What each step on the table tells, and how seats are split and joined.
use crate::view::SeatView;
use atomic_table::{Join, Play, Split};
use std::marker::{Brand, PhantomData};
use uc_base::Worked;

/// Draws a ticket.
pub(crate) struct Draw<S> {
    state: PhantomData<S>,
}

impl<S: Worked> Play<Option<S>, SeatView<S::Entry, S::Request, S::Reply>> for Draw<S> {
    ghost use Rattle.uc_turnstile.specs.Rule.{Draws};

    ghost then = { Draws S.entries };
}

/// Looks at the serving word.
pub(crate) struct Look<S> {
    state: PhantomData<S>,
}

impl<S: Worked> Play<Option<S>, SeatView<S::Entry, S::Request, S::Reply>> for Look<S> {
    ghost use Rattle.uc_turnstile.specs.Rule.{Looks};

    ghost then = { Looks S.entries S.faults };
}

/// The request and the reply of the turn that is passed on. The call that passes on picks it.
pub(crate) trait Called<Q, R> {
    ghost use Rattle.std.specs.Prelude.{Option};

    ghost call: { Option (Q × R) };
}

impl<Q, R> Called<Q, R> for Brand {
    ghost use Rattle.std.specs.Prelude.{None};

    ghost call = { None };
}

/// Passes on.
pub(crate) struct PassOn<S, C> {
    state: PhantomData<(S, C)>,
}

impl<S: Worked, C: Called<S::Request, S::Reply>> Play<
    Option<S>,
    SeatView<S::Entry, S::Request, S::Reply>,
> for PassOn<S, C> {
    ghost use Rattle.uc_turnstile.specs.Rule.{Passes};

    ghost then = { Passes S.entries S.faults C.call };
}

/// Tells what the seat knows.
pub(crate) struct Tell<S> {
    state: PhantomData<S>,
}

impl<S: Worked> Play<Option<S>, SeatView<S::Entry, S::Request, S::Reply>> for Tell<S> {
    ghost use Rattle.uc_turnstile.specs.Rule.{Tells};

    ghost then = { Tells S.entries };
}

/// Deals the first pass that is still held.
pub(crate) struct Deal;

impl<E, Q, R> Split<SeatView<E, Q, R>> for Deal {
    ghost use Rattle.uc_turnstile.specs.Rule.{deal_left, deal_right};

    ghost left = { deal_left };

    ghost right = { deal_right };
}

/// Splits a pass off.
pub(crate) struct Cut;

impl<E, Q, R> Split<SeatView<E, Q, R>> for Cut {
    ghost use Rattle.uc_turnstile.specs.Rule.{split_left, split_right};

    ghost left = { split_left };

    ghost right = { split_right };
}

/// Two passes meet.
pub(crate) struct Meet;

impl<E, Q, R> Join<SeatView<E, Q, R>> for Meet {
    ghost use Rattle.uc_turnstile.specs.Rule.{view_joined, spent_view};

    ghost both = { view_joined };

    ghost spent = { spent_view };
}
