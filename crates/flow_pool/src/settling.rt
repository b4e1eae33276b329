//! How the lanes are settled, once the workers have ended.

ghost use Rattle.std.specs.Prelude.{◌≡◌, ◌≤◌, [], All, map, vec_len, vec_capacity};
ghost use Rattle.flow_pool.specs.Work.{worker_lanes};
ghost use Rattle.flow_pool.specs.Hub.{hub_lanes, sent_lists, received_lists};
ghost use Rattle.flow_pool.specs.internal.Settling.{IsCollected, IsAnswered, pair_lanes, pair_tasks, pair_answers};
ghost use Rattle.flow_pool.specs.internal.Settling.{worker_answers, worker_tasks, IsReceived};

use crate::{Answer, HubEnds, Task, WorkerEnds};
use flow_lanes::{Settled, settle};

/// The two settled lanes of a worker: that of its tasks and that of its answers.
pub type LanePair = (Settled<Task>, Settled<Answer>);

/// Settles both lanes of a worker that has answered each prefix it was sent.
fn settle_pair(hub: HubEnds, worker: WorkerEnds) -> LanePair
    requires lanes { hub_lanes hub ≡ worker_lanes worker }
    requires hub { IsCollected hub }
    requires worker { IsAnswered worker }
    ensures tasks { (result.0.sent ≡ hub.tasks.sent) × (result.0.sent ≡ worker.tasks.received) }
    ensures answers { (result.1.sent ≡ hub.answers.received) × (result.1.sent ≡ worker.answers.sent) }
    ensures received { IsReceived result }
    ensures lanes { pair_lanes result ≡ hub_lanes hub }
{
    let HubEnds {
        tasks: sender,
        answers: receiver,
    } = hub;
    let WorkerEnds { tasks, answers } = worker;
    let Ok(tasks) = settle(sender, tasks) else {
        unreachable!()
    };
    let Ok(answers) = settle(answers, receiver) else {
        unreachable!()
    };
    (tasks, answers)
}

/// Settles the lanes of all workers, in their order.
pub(crate) fn settle_all(hubs: Vec<HubEnds>, workers: Vec<WorkerEnds>, lanes: &mut Vec<LanePair>)
    requires same { map hub_lanes hubs.items ≡ map worker_lanes workers.items }
    requires collected { All IsCollected hubs.items }
    requires answered { All IsAnswered workers.items }
    requires room { (lanes.old.items ≡ []) × (vec_len hubs ≤ vec_capacity lanes.old) }
    ensures len { vec_len lanes.new ≡ vec_len hubs }
    ensures capacity { vec_capacity lanes.new ≡ vec_capacity lanes.old }
    ensures tasks { (map pair_tasks lanes.new.items ≡ sent_lists hubs.items)
        × (map pair_tasks lanes.new.items ≡ map worker_tasks workers.items) }
    ensures answers { (map pair_answers lanes.new.items ≡ received_lists hubs.items)
        × (map pair_answers lanes.new.items ≡ map worker_answers workers.items) }
    ensures received { All IsReceived lanes.new.items }
    ensures lanes { map pair_lanes lanes.new.items ≡ map hub_lanes hubs.items }
{
    let mut hubs = hubs;
    let mut workers = workers;
    let Some(hub) = hubs.pop() else {
        return;
    };
    let Some(worker) = workers.pop() else {
        unreachable!()
    };
    let pair = settle_pair(hub, worker);
    settle_all(hubs, workers, lanes);
    lanes.push_reserved(pair);
}
