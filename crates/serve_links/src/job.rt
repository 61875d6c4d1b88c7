//! The jobs of a link.
ghost use Rattle.std.specs.Prelude.{◌≡◌};
ghost use Rattle.std.specs.Arc.{arc_value};
ghost use Rattle.space_shared.specs.Exchanges.{HasOpened};

use session_core::Core;
use sib_io::{Job, Sink, Source};
use space_shared::{Space, pump_in, pump_out};
use space_turn::TurnSeat;
use std::alloc::Global;
use std::marker::{Model, PhantomData};
use std::sync::{Arc, Wait};
use std::thread::Threads;

/// A half of a connection.
#[derive(Drop)]
pub enum Half<I, O> {
    /// What the peer sends.
    In(I),
    /// What is sent to the peer.
    Out(O),
}

/// A job that pumps one way of a link. Contracts see its turn, its link and its half of the connection.
#[derive(Drop)]
pub struct LinkJob<I: Source + Drop, O: Sink + Drop> {
    space: Arc<Space, Global>,
    seat: TurnSeat<Core>,
    link: u32,
    half: Half<I, O>,
}

impl<I: Source + Drop, O: Sink + Drop> Model for LinkJob<I, O> {
    ghost use Rattle.std.specs.Prelude.{◌≡◌};
    ghost use Rattle.std.specs.Arc.{arc_value};
    ghost use Rattle.space_shared.specs.Exchanges.{HasOpened};
    ghost use Rattle.serve_links.specs.Serving.{JobSight};

    ghost Value = { JobSight I O };

    ghost view = { λ j. record { turn = j.seat.turn; link = j.link; half = j.half } };

    ghost invariant = { λ j. (j.seat.turn ≡ arc_value j.space) × HasOpened j.seat j.link };
}

impl<I: Source + Drop, O: Sink + Drop> LinkJob<I, O> {
    /// A job for a half of a link, with a seat that has seen the link open.
    pub(crate) fn new(
        space: Arc<Space, Global>,
        seat: TurnSeat<Core>,
        link: u32,
        half: Half<I, O>,
    ) -> LinkJob<I, O>
        requires of_turn { seat.turn ≡ arc_value space }
        requires opened { HasOpened seat link }
        ensures { result ≡ record { turn = seat.turn; link = link; half = half } }
    {
        LinkJob {
            space,
            seat,
            link,
            half,
        }
    }
}

/// The leave to start threads and to wait that a runtime has, without the runtime: threads may share it. The checker does not
/// pass on that the runtime of a trait's method is `Sync`.
#[derive(Drop)]
struct Leave<R> {
    marker: PhantomData<R>,
}

impl<R: Threads> Threads for Leave<R> {}

impl<R: Wait> Wait for Leave<R> {}

impl<I: Source + Drop + Send + 'static, O: Sink + Drop + Send + 'static> Job for LinkJob<I, O> {
    /// Pumps its half of the link until it ends, and drops it.
    fn run<R: Threads + Wait + Sync>(self, alloc: Global, _rt: &R) {
        let rt: Leave<R> = Leave {
            marker: PhantomData,
        };
        let LinkJob {
            space,
            mut seat,
            link,
            half,
        } = self;
        match half {
            Half::In(mut source) => {
                pump_in(alloc, &space, &rt, &mut seat, link, &mut source);
            }
            Half::Out(mut sink) => {
                pump_out(alloc, &space, &rt, &mut seat, link, &mut sink);
            }
        }
    }
}
