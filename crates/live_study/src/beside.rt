//! The engine and the other members of its crew, which step the stations (logical processes) of larger windows.
ghost use Rattle.std.specs.Prelude.{◌≡◌, ◌<◌, length};
ghost use Rattle.decision_desk.specs.Desks.{desk_id};
ghost use Rattle.live_study.specs.Driving.{HasCounted, HasDriven, MayDrive};
ghost use Rattle.world_core.specs.Worlds.{total_handled};

use crate::engine::{Engine, drive};
use crate::resources::Resources;
use crate::work::{Count, count_of};
use crew_pool::{Bell, Crew, Gate, serve_all};
use decision_desk::Desk;
use shelf::{Naming, Stocker};
use sim_base::Steps;
use std::sync::Wait;
use std::sync::ledger::{Blank, Ledger};
use std::thread;
use std::thread::Threads;
use study_run::{NewCrew, StudyFault, begin_crew};
use world_core::{Window, World};

/// What the engine's thread hands back. `S` is the type of the engine's stocker.
#[derive(Drop)]
pub(crate) struct Driven<L: Ledger, S: Drop> {
    /// The engine, with its helm and its stocker.
    pub(crate) engine: Engine<S>,
    /// The world at the horizon, or why there is none.
    pub(crate) run: Result<World, StudyFault>,
    /// Its counter, and what that counted.
    pub(crate) count: Count<L>,
}

// The engine with this crew. It counts on the counter that it is given, and returns it with what it counted.
fn drive_and_count<G: Gate, J: Naming, L: Ledger, W: Wait + Drop, R: Wait>(
    resources: &Resources<'_, G, R>,
    crew: &mut Crew<'_, Window, G>,
    desk: &Desk,
    mut engine: Engine<Stocker<J, W>>,
    world: World,
    mut steps: Steps<L>,
) -> Driven<L, Stocker<J, W>>
    requires may_drive { MayDrive (desk_id desk.now) engine.helm world engine.stocker.stock.published }
    requires first { (steps ≡ 0) × (total_handled world.net world.clones world.front ≡ 0) }
    ensures driven { HasDriven engine.helm result.engine.helm result.run result.engine.stocker.stock.published
        engine.stocker.stock.readers result.engine.stocker.stock.has_published
        (length result.engine.stocker.stock.spares.items) }
    ensures counted { HasCounted result.run result.count.steps result.count.many }
{
    let run = drive(resources, crew, desk, &mut engine, world, &mut steps);
    let count = count_of(&run, steps);
    Driven { engine, run, count }
}

/// The engine runs to the horizon, publishes on its way, and returns helm and stocker in any case. It makes its counter
/// of the blank here, in its thread, and returns it with what it counted. The members of its crew have a thread each.
/// Out of memory for its crew, it runs without one.
pub(crate) fn run_engine<
    'g,
    G: Gate + Sync,
    J: Naming,
    L: Ledger,
    W: Wait + Drop,
    R: Threads + Wait + Sync,
>(
    resources: &Resources<'g, G, R>,
    desk: &Desk,
    engine: Engine<Stocker<J, W>>,
    world: World,
    blank: Blank,
) -> Driven<L, Stocker<J, W>>
    requires may_drive { MayDrive (desk_id desk.now) engine.helm world engine.stocker.stock.published }
    requires first { total_handled world.net world.clones world.front ≡ 0 }
    requires name { blank.name ≡ L.name }
    requires parts { blank.parts ≡ L.parts }
    requires nonempty { 0 < L.parts }
    ensures driven { HasDriven engine.helm result.engine.helm result.run result.engine.stocker.stock.published
        engine.stocker.stock.readers result.engine.stocker.stock.has_published
        (length result.engine.stocker.stock.spares.items) }
    ensures counted { HasCounted result.run result.count.steps result.count.many }
{
    let steps = Steps::<L>::new(blank);
    let (rt, alloc, gate) = (resources.rt, resources.alloc, resources.gate);
    let mut crew: Crew<'g, Window, G> = Crew::single(gate);
    if let Some(made) = begin_crew(alloc, gate, resources.workers) {
        let NewCrew {
            crew: own,
            members,
            bell,
        } = made;
        crew = own;
        if !members.is_empty() {
            let bell: &Bell = &bell;
            let (_, done) = thread::join(
                rt,
                move || serve_all(rt, alloc, bell, members),
                move || -> Driven<L, Stocker<J, W>>
                    requires { MayDrive (desk_id desk.now) engine.helm world engine.stocker.stock.published
                        × (steps ≡ 0) × (total_handled world.net world.clones world.front ≡ 0) }
                    ensures { HasDriven engine.helm result.engine.helm result.run
                        result.engine.stocker.stock.published engine.stocker.stock.readers
                        result.engine.stocker.stock.has_published
                        (length result.engine.stocker.stock.spares.items)
                        × HasCounted result.run result.count.steps result.count.many }
                {
                    let driven = drive_and_count(resources, &mut crew, desk, engine, world, steps);
                    bell.end();
                    driven
                },
            );
            return done;
        }
    }
    drive_and_count(resources, &mut crew, desk, engine, world, steps)
}
