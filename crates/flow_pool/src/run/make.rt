//! What is made for a run before a worker is started: its lanes and lists.

ghost use Rattle.std.specs.Prelude.{◌≡◌, All, IfOk, map, vec_len};
ghost use Rattle.flow_pool.specs.Deal.{by_worker};
ghost use Rattle.flow_pool.specs.Work.{IsFresh, worker_lanes};
ghost use Rattle.flow_pool.specs.Hub.{hub_lanes};
ghost use Rattle.flow_pool.specs.Report.{run_slots};
ghost use Rattle.flow_pool.specs.internal.HubSteps.{hub_slots};
ghost use Rattle.flow_pool.specs.internal.Settling.{IsReadyHub};
ghost use Rattle.flow_pool.specs.internal.Runs.{IsMade};

use crate::lane_ends::HubState;
use crate::settling::LanePair;
use crate::{HubEnds, WorkerEnds};
use crossbeam_utils::sync::Parker;
use flow_lanes::lane;
use flow_search::{Outcome, Plan};
use std::alloc::{AllocError, Global};

/// How many slots each lane of a run has.
pub const SLOTS: usize = 4;

/// What is made for a run before a worker is started.
#[derive(Drop)]
pub(crate) struct Made {
    /// The workers' ends of all lanes.
    pub ends: Vec<WorkerEnds>,
    /// The hub's ends, room for all answers, and where the hub waits.
    pub hub: HubState,
    /// Room for all outcomes.
    pub room: Vec<Outcome>,
    /// Room for the settled lanes.
    pub lanes: Vec<LanePair>,
}

/// Makes both lanes of a worker.
fn make_pair(alloc: Global) -> Result<(HubEnds, WorkerEnds), AllocError>
    ensures lanes { IfOk result (λ ends. hub_lanes ends.0 ≡ worker_lanes ends.1) }
    ensures fresh { IfOk result (λ ends. IsReadyHub ends.0 × IsFresh ends.1) }
    ensures slots { IfOk result (λ ends. hub_slots ends.0 ≡ (run_slots, run_slots)) }
{
    let (sender, tasks) = lane(alloc, SLOTS)?;
    let (answers, receiver) = lane(alloc, SLOTS)?;
    Ok((
        HubEnds {
            tasks: sender,
            answers: receiver,
        },
        WorkerEnds { tasks, answers },
    ))
}

/// Makes both lanes of each worker.
fn make_lanes(alloc: Global, workers: u32) -> Result<(Vec<HubEnds>, Vec<WorkerEnds>), AllocError>
    ensures count { IfOk result (λ ends. (vec_len ends.0 ≡ workers) × (vec_len ends.1 ≡ workers)) }
    ensures lanes { IfOk result (λ ends. map hub_lanes ends.0.items ≡ map worker_lanes ends.1.items) }
    ensures fresh { IfOk result (λ ends. All IsReadyHub ends.0.items × All IsFresh ends.1.items) }
    ensures slots { IfOk result (λ ends. map hub_slots ends.0.items ≡ by_worker workers (λ _. (run_slots, run_slots))) }
{
    let mut hubs = Vec::with_capacity(alloc, workers as usize)?;
    let mut ends = Vec::with_capacity(alloc, workers as usize)?;
    'made: for made in 0..workers {
        let (hub, worker) = make_pair(alloc)?;
        hubs.push(hub)?;
        ends.push(worker)?;
    }
    Ok((hubs, ends))
}

/// Makes all lanes and lists of a run.
pub(crate) fn make_run(alloc: Global, plan: &Plan) -> Result<Made, AllocError>
    ensures { IfOk result (λ made. IsMade plan.now made) }
{
    let count = plan.prefixes() as usize;
    let workers = plan.options().workers();
    let (hubs, ends) = make_lanes(alloc, workers)?;
    let answers = Vec::with_capacity(alloc, count)?;
    let room = Vec::with_capacity(alloc, count)?;
    let lanes = Vec::with_capacity(alloc, workers as usize)?;
    let parker = Parker::new(alloc)?;
    let hub = HubState {
        hubs,
        answers,
        parker,
    };
    Ok(Made {
        ends,
        hub,
        room,
        lanes,
    })
}
