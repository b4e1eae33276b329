//! Instances, sequences, makespans, sets of jobs and the generator.

use crate::instances::{three_machines, two_machines};
use crate::shops::{Shop, made};
use flow_core::{
    Instance, InstanceFault, JobSet, Sequence, SequenceFault, Taillard, generate, makespan, rows,
};
use std::test::Fail;

/// Jobs, machines and times, and the first fault.
type Refused = (u32, u32, &'static [u32], InstanceFault);

static INSTANCE_FAULTS: [Refused; 4] = [
    (801, 1, &[], InstanceFault::Jobs),
    (1, 27, &[], InstanceFault::Machines),
    (2, 1, &[7], InstanceFault::Count),
    (1, 2, &[0, 1_000_000], InstanceFault::Time(2)),
];

#[test]
fn instance_names_first_fault(rt: HostRuntime) {
    for (jobs, machines, times, fault) in &INSTANCE_FAULTS {
        let refused = Instance::new(rt.alloc(), *jobs, *machines, times).err();
        assert_eq!(rt; refused, Some(*fault), "{jobs} jobs on {machines} machines");
    }
}

#[test]
fn instance_gives_its_parts(rt: HostRuntime) -> Result<(), Fail> {
    let two = two_machines(rt.alloc())?;
    assert_eq!(rt;
        (two.jobs(), two.machines(), two.time(3, 1), two.time(2, 2)),
        (3, 2, 2, 4)
    );
    Ok(())
}

/// The times and tails of the three jobs on the two machines.
static ROWS: [([u32; 2], [u32; 2]); 3] = [([3, 2], [2, 0]), ([1, 4], [4, 0]), ([2, 2], [2, 0])];

#[test]
fn rows_have_times_and_tails(rt: HostRuntime) -> Result<(), Fail> {
    let two = two_machines(rt.alloc())?;
    let rows = rows(rt.alloc(), &two)?;
    assert_eq!(rt; rows.len(), 3);
    for (row, (times, tails)) in rows.iter().zip(ROWS.iter()) {
        assert_eq!(rt;
            (&row.times[..2], &row.tails[..2]),
            (&times[..], &tails[..])
        );
    }
    Ok(())
}

/// Jobs of the instance with two machines, and the first fault.
static SEQUENCE_FAULTS: [(&[u16], SequenceFault); 3] = [
    (&[2, 2, 1], SequenceFault::Twice(2)),
    (&[2, 3], SequenceFault::Length),
    (&[0, 1, 2], SequenceFault::Job(1)),
];

#[test]
fn sequence_names_first_fault(rt: HostRuntime) -> Result<(), Fail> {
    let two = two_machines(rt.alloc())?;
    for (jobs, fault) in &SEQUENCE_FAULTS {
        let refused = Sequence::new(rt.alloc(), &two, jobs).err();
        assert_eq!(rt; refused, Some(*fault), "{jobs:?}");
    }
    Ok(())
}

/// The instance with two machines, in the other order. On it a sequence takes as long as the reversed one on the first.
const TURNED: Shop = Shop::Times(3, 2, &[2, 4, 2, 3, 1, 2]);

/// Sequences and their makespans.
static MAKESPANS: [(Shop, &[u16], u64); 15] = [
    (Shop::Three, &[1, 2, 3], 15),
    (Shop::Three, &[1, 3, 2], 14),
    (Shop::Three, &[2, 1, 3], 13),
    (Shop::Three, &[2, 3, 1], 15),
    (Shop::Three, &[3, 1, 2], 12),
    (Shop::Three, &[3, 2, 1], 14),
    (Shop::Two, &[3, 2, 1], 10),
    (Shop::Two, &[2, 3, 1], 9),
    (Shop::Two, &[2, 1, 3], 9),
    (TURNED, &[1, 2, 3], 10),
    (TURNED, &[1, 3, 2], 9),
    (TURNED, &[3, 1, 2], 9),
    (Shop::Seed(2, 2, 1), &[1, 2], 122),
    (Shop::Seed(2, 2, 1), &[2, 1], 135),
    (Shop::Times(1, 1, &[999_999]), &[1], 999_999),
];

#[test]
fn makespans_are_those_of_the_worked_sequences(rt: HostRuntime) -> Result<(), Fail> {
    for (number, (shop, jobs, value)) in MAKESPANS.iter().enumerate() {
        let instance = made(rt.alloc(), *shop)?;
        let sequence = Sequence::new(rt.alloc(), &instance, jobs)?;
        assert_eq!(rt; sequence.jobs(), *jobs, "row {number}");
        assert_eq!(rt; makespan(&instance, &sequence), *value, "row {number}");
    }
    Ok(())
}

/// A set of three jobs loses one of them, and no other; and a set of no job gains one, and no other.
#[test]
fn job_set_is_a_set(rt: HostRuntime) -> Result<(), Fail> {
    let three = three_machines(rt.alloc())?;
    let mut set = JobSet::all(&three);
    assert_eq!(rt; set.count(), 3);
    set.remove(2);
    for (job, is_left) in [(1, true), (2, false), (3, true), (4, false)] {
        assert_eq!(rt; set.contains(job), is_left, "{job}");
    }
    assert_eq!(rt; set.count(), 2);
    let mut set = JobSet::none();
    assert_eq!(rt; set.count(), 0);
    set.insert(800);
    assert_eq!(rt;
        (set.contains(800), set.contains(799), set.count()),
        (true, false, 1)
    );
    Ok(())
}

/// Seeds, and for each step the state and the number from 1 to 99.
static STEPS: [(u32, &[(u32, u32)]); 3] = rows! {
    1, &[(16_807, 1), (282_475_249, 14), (1_622_650_073, 75), (984_943_658, 46)];
    873_654_221, &[(1_160_797_808, 54), (1_787_309_708, 83), (313_008_120, 15)];
    2_147_483_646, &[(2_147_466_840, 99)];
};

#[test]
fn generator_follows_its_vectors(rt: HostRuntime) -> Result<(), Fail> {
    for (seed, steps) in &STEPS {
        let mut generator = Taillard::new(*seed).ok_or("no seed")?;
        assert_eq!(rt; generator.state(), *seed);
        for (state, number) in *steps {
            assert_eq!(rt; generator.next(1, 99), *number, "after {seed}");
            assert_eq!(rt; generator.state(), *state, "after {seed}");
        }
    }
    Ok(())
}

/// Seeds out of range have no generator; and one draws from the whole range: the state 16807 stands for 16807 * 2^32 /
/// 2147483647, rounded down.
#[test]
fn generator_draws_from_the_whole_range(rt: HostRuntime) -> Result<(), Fail> {
    let mut generator = Taillard::new(1).ok_or("no seed")?;
    assert_eq!(rt; generator.next(0, u32::MAX), 33_614);
    assert!(rt; Taillard::new(0).is_none());
    assert!(rt; Taillard::new(2_147_483_647).is_none());
    Ok(())
}

/// Jobs, machines and seeds, and the first fault.
static GENERATE_FAULTS: [(u32, u32, u32, InstanceFault); 5] = [
    (0, 2, 1, InstanceFault::Jobs),
    (2, 0, 1, InstanceFault::Machines),
    (0, 0, 0, InstanceFault::Jobs),
    (2, 2, 0, InstanceFault::Seed),
    (2, 2, 2_147_483_647, InstanceFault::Seed),
];

#[test]
fn generate_names_first_fault(rt: HostRuntime) {
    for (jobs, machines, seed, fault) in &GENERATE_FAULTS {
        let refused = generate(rt.alloc(), *jobs, *machines, *seed).err();
        assert_eq!(rt; refused, Some(*fault), "{jobs} {machines} {seed}");
    }
}

/// The first published instance of 20 jobs on 5 machines begins as it was published.
#[test]
fn generated_instances_begin_as_published(rt: HostRuntime) -> Result<(), Fail> {
    let instance = generate(rt.alloc(), 20, 5, 873_654_221)?;
    let times = instance.times(rt.alloc())?;
    assert_eq!(rt; (instance.jobs(), instance.machines()), (20, 5));
    assert!(rt; times.as_slice().starts_with(&[54, 83, 15]));
    Ok(())
}
