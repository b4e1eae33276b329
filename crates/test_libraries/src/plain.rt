//! The words of the definitions of fronts and bounds, each computed anew from the times.

use flow_core::Instance;

/// The time of a job on the machines from first to last.
fn time_between(instance: &Instance, job: u16, first: u16, last: u16) -> u64 {
    let mut total = 0u64;
    for machine in 1..instance.machines() + 1 {
        if first <= machine && machine <= last && 1 <= job && job <= instance.jobs() {
            total = total.saturating_add(u64::from(instance.time(job, machine)));
        }
    }
    total
}

/// When the last job of a list leaves a machine.
pub fn completion(instance: &Instance, jobs: &[u16], machine: u16) -> u64 {
    let mut free = [0u64; 32];
    for job in jobs {
        let mut before = 0u64;
        for here in 1..instance.machines() + 1 {
            let place = here as usize % 32;
            let time = time_between(instance, *job, here, here);
            before = free[place].max(before).saturating_add(time);
            free[place] = before;
        }
    }
    free[machine as usize % 32]
}

/// Whether a job stands in a list.
pub fn has(jobs: &[u16], job: u16) -> bool {
    jobs.contains(&job)
}

/// The least time that a job left needs on the machines from first to last.
fn least_between(instance: &Instance, jobs: &[u16], first: u16, last: u16) -> u64 {
    let mut least = u64::MAX;
    for job in 1..instance.jobs() + 1 {
        if !has(jobs, job) {
            least = least.min(time_between(instance, job, first, last));
        }
    }
    least
}

/// The bound of a list on a machine.
pub fn bound(instance: &Instance, version: u32, jobs: &[u16], machine: u16) -> u64 {
    let mut release = completion(instance, jobs, machine);
    let mut load = 0u64;
    for job in 1..instance.jobs() + 1 {
        if !has(jobs, job) {
            load = load.saturating_add(time_between(instance, job, machine, machine));
        }
    }
    if version == 2 {
        for from in 1..machine {
            let least = least_between(instance, jobs, from, machine - 1);
            release = release.max(completion(instance, jobs, from).saturating_add(least));
        }
    }
    let tail = least_between(
        instance,
        jobs,
        machine.saturating_add(1),
        instance.machines(),
    );
    release.saturating_add(load).saturating_add(tail)
}
