//! The server.
ghost use Rattle.std.specs.Prelude.{◌≡◌, ◌<◌, ℕ, List, [], IfOk};
ghost use Rattle.std.specs.Arc.{arc_value};
ghost use Rattle.session_core.specs.Runs.{StandsFor};
ghost use Rattle.space_shared.specs.Exchanges.{HasOpened};
ghost use Rattle.serve_links.specs.Serving.{Outside, outside, Serves, Serving, ServesOn, Works};
ghost use Rattle.space_turn.specs.Sights.{IsSameSeat};
ghost use Rattle.serve_links.specs.Starting.{opened_link, AsksLink, StartsBoth, Loses};

use crate::{Half, LinkJob, ServeEnd, Served};
use m3_intern::TermKeys;
use m3_terms::{NoMemory, Steps, Text};
use session_core::{Call, Core, Reply};
use sib_io::{Accept, Sink, Source, Spawner};
use space_shared::Space;
use space_turn::{CallFault, TurnSeat};
use std::alloc::Global;
use std::marker::Brand;
use std::random::RandomSource;
use std::sync::ledger::{Blank, Ledger};
use std::sync::{Arc, Wait};
use std::thread::Threads;

/// Shares a new space of this name among the peers that connect. For each connection it opens a link, and begins a job that
/// pumps its input, and then one that pumps its output, each with a seat of its own. Where no link may open the connection is
/// dropped, and the next is awaited. The first failure of `accept` or `spawner` ends the call.
///
/// The jobs go on after the call. It may wait for connections, for the turn, and for the lock of a bell. The keys under which the
/// space hashes its terms are random, so that peers can't pick many terms of one hash.
///
/// | End | Where |
/// |---|---|
/// | `Ended` | no connection waits |
/// | `AcceptFault` | `accept` failed |
/// | `NoThread` | `spawner` failed; the link is told to be lost |
/// | `Worn` | the history has as many calls as it may have; it goes before `NoThread` |
/// | `NoMemory` | out of memory |
pub fn sib_serve<
    A: Accept,
    P: Spawner<LinkJob<A::Input, A::Output>>,
    R: Threads + Wait + RandomSource + Sync,
>(alloc: Global, rt: &R, space: Text, accept: &mut A, spawner: &mut P) -> Served
    ensures serves { Serves space (outside (A.waiting accept.old) (P.begun spawner.old) (A.faults accept.old) (P.faults spawner.old))
        (outside (A.waiting accept.new) (P.begun spawner.new) (A.faults accept.new) (P.faults spawner.new)) result.end result.seat }
{
    let core = Core::keyed(alloc, space, keys(rt));
    match share(alloc, core) {
        Ok((shared, mut seat)) => {
            let end = counted::<_, _, _, Brand>(
                alloc,
                rt,
                &shared,
                &mut seat,
                accept,
                spawner,
                Blank::new(1),
            );
            Served {
                end,
                seat: Some(seat),
            }
        }
        Err(NoMemory) => Served {
            end: ServeEnd::NoMemory,
            seat: None,
        },
    }
}

// Random keys. Where the system has no random bytes they are the same each time.
fn keys<R: RandomSource>(rt: &R) -> TermKeys {
    let mut bytes = [0u8; 16];
    if rt.fill_bytes(&mut bytes).is_err() {
        return TermKeys { key0: 0, key1: 0 };
    }
    let keys = u128::from_le_bytes(bytes);
    TermKeys {
        key0: (keys & 0xFFFF_FFFF_FFFF_FFFF) as u64,
        key1: (keys >> 64) as u64,
    }
}

// Shares a space in which nothing happened.
fn share(alloc: Global, core: Core) -> Result<(Arc<Space, Global>, TurnSeat<Core>), NoMemory>
    requires empty { StandsFor core.space.name [] core }
    ensures seat { IfOk result (λ shared. (shared.1.turn ≡ arc_value shared.0) × (shared.1.root ≡ core.space.name)) }
    ensures history { IfOk result (λ shared. (shared.1.seen ≡ []) × (shared.1.mine ≡ []) × (shared.1.found ≡ 0)) }
{
    let (space, seat) = Space::make(alloc, core)?;
    let shared = Arc::new(alloc, space)?;
    Ok((shared, seat))
}

// Serves with a counter of its own.
fn counted<
    A: Accept,
    P: Spawner<LinkJob<A::Input, A::Output>>,
    R: Threads + Wait + Sync,
    L: Ledger,
>(
    alloc: Global,
    rt: &R,
    space: &Arc<Space, Global>,
    seat: &mut TurnSeat<Core>,
    accept: &mut A,
    spawner: &mut P,
    blank: Blank,
) -> ServeEnd
    requires name { blank.name ≡ L.name }
    requires parts { blank.parts ≡ L.parts }
    requires some { 0 < L.parts }
    requires of_turn { seat.old.turn ≡ arc_value space.now }
    requires fresh { (seat.old.seen ≡ []) × (seat.old.mine ≡ []) × (seat.old.found ≡ 0) }
    ensures works { Works seat.old.root (outside (A.waiting accept.old) (P.begun spawner.old) (A.faults accept.old) (P.faults spawner.old))
        (outside (A.waiting accept.new) (P.begun spawner.new) (A.faults accept.new) (P.faults spawner.new)) result seat.new }
{
    let mut steps = Steps::<L>::new(blank);
    for _ in rt.forever() {
        if let Err(end) = serve_next(alloc, rt, space, seat, accept, spawner, &mut steps) {
            return end;
        }
    }
    unreachable!()
}

// Serves the next connection.
fn serve_next<
    A: Accept,
    P: Spawner<LinkJob<A::Input, A::Output>>,
    R: Threads + Wait + Sync,
    L: Ledger,
>(
    alloc: Global,
    rt: &R,
    space: &Arc<Space, Global>,
    seat: &mut TurnSeat<Core>,
    accept: &mut A,
    spawner: &mut P,
    steps: &mut Steps<L>,
) -> Result<(), ServeEnd>
    requires of_turn { seat.old.turn ≡ arc_value space.now }
    ensures of_turn { seat.new.turn ≡ seat.old.turn }
    ensures serves { (name : List ℕ) (old : Outside A.Input A.Output) → Serving name old (outside (A.waiting accept.old) (P.begun spawner.old) (A.faults accept.old) (P.faults spawner.old)) seat.old
        → ServesOn name old (outside (A.waiting accept.new) (P.begun spawner.new) (A.faults accept.new) (P.faults spawner.new)) result seat.new }
{
    let (input, output) = match accept.next() {
        Ok(Some(connection)) => connection,
        Ok(None) => return Err(ServeEnd::Ended),
        Err(_) => return Err(ServeEnd::AcceptFault),
    };
    match ask_link(alloc, rt, space, seat, steps) {
        Ok(Some(link)) => match start_both(space, seat, link, input, output, spawner) {
            Ok(()) => Ok(()),
            Err(StartFault::NoMemory) => Err(ServeEnd::NoMemory),
            Err(StartFault::Refused) => Err(lose(alloc, rt, space, seat, link, steps)),
        },
        Ok(None) => Ok(()),
        Err(end) => Err(end),
    }
}

// Asks for a link, and says its number if one opened.
fn ask_link<R: Threads + Wait + Sync, L: Ledger>(
    alloc: Global,
    rt: &R,
    space: &Arc<Space, Global>,
    seat: &mut TurnSeat<Core>,
    steps: &mut Steps<L>,
) -> Result<Option<u32>, ServeEnd>
    requires of_turn { seat.old.turn ≡ arc_value space.now }
    ensures same_seat { IsSameSeat seat.old seat.new }
    ensures asks { AsksLink seat.old result seat.new }
{
    match space.turn().call(alloc, rt, seat, Call::NewLink, steps) {
        Ok(reply) => Ok(opened(&reply)),
        Err(CallFault::Worn { count }) => Err(ServeEnd::Worn { count }),
        Err(CallFault::NoMemory) => Err(ServeEnd::NoMemory),
    }
}

// The number of the link that opened, if the reply tells one.
fn opened(reply: &Reply) -> Option<u32>
    ensures { result ≡ opened_link reply.now }
{
    match reply {
        Reply::Opened(link) => Some(*link),
        Reply::TooManyLinks { count: _ } => None,
        Reply::Done { ring: _ } => None,
        Reply::Closed => None,
        Reply::NoLink => None,
        Reply::Message(_) => None,
        Reply::Empty => None,
        Reply::Over => None,
    }
}

// Why the jobs of a link did not both begin.
enum StartFault {
    Refused,
    NoMemory,
}

// Begins the job that pumps the input of a link, and then the one that pumps its output.
fn start_both<
    I: Source + Drop + Send + 'static,
    O: Sink + Drop + Send + 'static,
    P: Spawner<LinkJob<I, O>>,
>(
    space: &Arc<Space, Global>,
    seat: &mut TurnSeat<Core>,
    link: u32,
    input: I,
    output: O,
    spawner: &mut P,
) -> Result<(), StartFault>
    requires of_turn { seat.old.turn ≡ arc_value space.now }
    requires opened { HasOpened seat.old link }
    ensures same { seat.new ≡ seat.old }
    ensures starts { StartsBoth seat.old.turn link (input, output) (P.begun spawner.old) (P.begun spawner.new) (P.faults spawner.old) (P.faults spawner.new) result }
{
    let Ok(reading) = Arc::try_clone(space) else {
        return Err(StartFault::NoMemory);
    };
    let Ok(writing) = Arc::try_clone(space) else {
        return Err(StartFault::NoMemory);
    };
    let reader = LinkJob::new(reading, space.turn().split(seat), link, Half::In(input));
    let writer = LinkJob::new(writing, space.turn().split(seat), link, Half::Out(output));
    if spawner.start(reader).is_err() || spawner.start(writer).is_err() {
        return Err(StartFault::Refused);
    }
    Ok(())
}

// Tells the space that a link is lost whose jobs did not both begin.
fn lose<R: Threads + Wait + Sync, L: Ledger>(
    alloc: Global,
    rt: &R,
    space: &Arc<Space, Global>,
    seat: &mut TurnSeat<Core>,
    link: u32,
    steps: &mut Steps<L>,
) -> ServeEnd
    requires of_turn { seat.old.turn ≡ arc_value space.now }
    requires opened { HasOpened seat.old link }
    ensures of_turn { seat.new.turn ≡ seat.old.turn }
    ensures loses { Loses link seat.old result seat.new }
{
    match space.turn().call(alloc, rt, seat, Call::Lost(link), steps) {
        Ok(reply) => {
            if let Reply::Done { ring } = reply {
                space.ring(rt, &ring);
            }
            ServeEnd::NoThread
        }
        Err(CallFault::Worn { count }) => ServeEnd::Worn { count },
        Err(CallFault::NoMemory) => unreachable!(),
    }
}
