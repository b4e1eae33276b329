//! Children's bounds, groups and marks of flow_nodes; the bounds were worked out by hand.

ghost use Rattle.std.specs.Prelude.{◌≡◌, ◌<◌, ◌≤◌, length};
ghost use Rattle.flow_nodes.specs.Nodes.{IsJob};
ghost use Rattle.flow_nodes.specs.Groups.{AreGroups};

use flow_nodes::{LANES, MAX_GROUPS, Marks, Node, Vector, groups, time_of_all, write_group};
use flow_shop::{End, Instance};
use std::simd::prelude::*;
use std::test::Fail;

/// The number in a lane of the children that put a job at an end, from a group that has the job in each lane.
fn child_bound<V: Vector>(
    instance: &Instance,
    node: &Node,
    end: End,
    job: u16,
    group: &mut [V],
) -> u32
    requires job { IsJob instance.now job }
    requires machines { length group.old ≡ instance.now.machines }
    requires few { length group.old ≤ 26 }
    requires lane { 0 < V.WIDTH }
{
    let jobs = [job; 64];
    write_group(instance, &jobs[..V::WIDTH], group);
    node.child_bounds(end, group).at(0)
}

/// Three jobs on three machines: the children at the front have the bounds 14, 13 and 10, those at the back 14, 12 and
/// 11.
#[test]
fn bounds_of_three_machines(rt: HostRuntime) -> Result<(), Fail> {
    let instance = Instance::new(rt.alloc(), 3, 3, &[4, 0, 0, 0, 8, 2, 4, 0, 1])?;
    let root = Node::root(&instance);
    assert_eq!(rt; root.bound(&instance), 10);
    let fronts = [14, 13, 10];
    let backs = [14, 12, 11];
    let mut narrow = [u16x16::splat(0); 3];
    let mut great = [u32x16::splat(0); 3];
    for job in 1..4_u16 {
        let place = job as usize - 1;
        for (end, wanted) in [(End::Front, fronts[place]), (End::Back, backs[place])] {
            assert_eq!(rt;
                child_bound(&instance, &root, end, job, &mut narrow),
                wanted
            );
            assert_eq!(rt; child_bound(&instance, &root, end, job, &mut great), wanted);
        }
    }
    Ok(())
}

/// How many jobs of one group make children below a threshold at an end, the place of the first of them, and that of
/// the first from place 8 on.
type Below = (u32, Option<usize>, Option<usize>);

/// Of these jobs of one group, those that make children below a threshold at an end.
fn below<V: Vector>(
    instance: &Instance,
    node: &Node,
    end: End,
    groups: &[Vec<V>],
    left: &Marks,
    number: u32,
) -> Below
    requires wide { V.WIDTH ≡ 16 }
    requires number { number ≤ V.CAP }
    requires groups { AreGroups V.list V.CAP V.WIDTH instance.now groups.now }
{
    let mut marks = Marks::none();
    node.mark_below(end, groups, left, number, &mut marks);
    (marks.count(1), marks.next(0, 1), marks.next(8, 1))
}

/// The bounds of the children that put the jobs of the first group at an end, a lane for each job.
fn first_bounds<V: Vector>(instance: &Instance, node: &Node, end: End, groups: &[Vec<V>]) -> V
    requires { AreGroups V.list V.CAP V.WIDTH instance.now groups.now }
{
    node.child_bounds(end, groups[0].as_slice())
}

/// Behind the third job the others have the bounds 12 and 14.
#[test]
fn bounds_of_a_child(rt: HostRuntime) -> Result<(), Fail> {
    let instance = Instance::new(rt.alloc(), 3, 3, &[4, 0, 0, 0, 8, 2, 4, 0, 1])?;
    let mut node = Node::root(&instance);
    node.put(&instance, End::Front, 3);
    assert_eq!(rt; node.bound(&instance), 10);
    let mut group = [u16x16::splat(0); 3];
    assert_eq!(rt;
        child_bound(&instance, &node, End::Front, 1, &mut group),
        12
    );
    assert_eq!(rt;
        child_bound(&instance, &node, End::Front, 2, &mut group),
        14
    );
    Ok(())
}

/// A bound above the cap: lanes of 16 bits have the cap, and no child is below it.
#[test]
fn bounds_above_the_cap(rt: HostRuntime) -> Result<(), Fail> {
    let instance = Instance::new(rt.alloc(), 2, 1, &[40_000, 50_000])?;
    let root = Node::root(&instance);
    assert_eq!(rt; root.bound(&instance), 90_000);
    let mut narrow = [u16x16::splat(0); 1];
    let mut great = [u32x16::splat(0); 1];
    assert_eq!(rt;
        child_bound(&instance, &root, End::Front, 1, &mut narrow),
        65_535
    );
    assert_eq!(rt;
        child_bound(&instance, &root, End::Front, 1, &mut great),
        90_000
    );
    let groups = groups::<u16x16>(rt.alloc(), &instance)?;
    let left = Marks::first(2);
    let found = below(
        &instance,
        &root,
        End::Back,
        groups.as_slice(),
        &left,
        65_535,
    );
    assert_eq!(rt; found, (0, None, None));
    Ok(())
}

/// Sixteen jobs on two machines: job `j` takes `j` on the first and `17 - j` on the second.
static SIXTEEN_JOBS: [u32; 32] = [
    1, 2, 3, 4, 5, 6, 7, 8, 9, 10, 11, 12, 13, 14, 15, 16, 16, 15, 14, 13, 12, 11, 10, 9, 8, 7, 6,
    5, 4, 3, 2, 1,
];

/// Sixteen jobs on two machines, of which job `j` takes `j` on the first and `17 - j` on the second, so all take 136 on
/// each. Whatever job is first leaves the second machine at 17, so its child at the front has the bound `136 + j`; and
/// whatever job is last needs 17 from its start, so its child at the back has the bound `153 - j`. Below 145 are the
/// first eight at the front, and the last eight at the back.
#[test]
fn bounds_of_sixteen_jobs(rt: HostRuntime) -> Result<(), Fail> {
    let instance = Instance::new(rt.alloc(), 16, 2, &SIXTEEN_JOBS)?;
    let root = Node::root(&instance);
    let mut narrow = [u16x16::splat(0); 2];
    let mut great = [u32x16::splat(0); 2];
    for job in 1..17_u16 {
        for (end, wanted) in [
            (End::Front, 136 + u32::from(job)),
            (End::Back, 153 - u32::from(job)),
        ] {
            assert_eq!(rt;
                child_bound(&instance, &root, end, job, &mut narrow),
                wanted
            );
            assert_eq!(rt; child_bound(&instance, &root, end, job, &mut great), wanted);
        }
    }
    let left = Marks::first(16);
    let narrow = groups::<u16x16>(rt.alloc(), &instance)?;
    let fronts = first_bounds(&instance, &root, End::Front, narrow.as_slice());
    let backs = first_bounds(&instance, &root, End::Back, narrow.as_slice());
    for lane in 0..LANES {
        let job = lane as u32 + 1;
        assert_eq!(rt; fronts.at(lane), 136 + job);
        assert_eq!(rt; backs.at(lane), 153 - job);
    }
    let found = below(&instance, &root, End::Front, narrow.as_slice(), &left, 145);
    assert_eq!(rt; found, (8, Some(0), None));
    let found = below(&instance, &root, End::Back, narrow.as_slice(), &left, 145);
    assert_eq!(rt; found, (8, Some(8), Some(8)));
    let great = groups::<u32x16>(rt.alloc(), &instance)?;
    let found = below(&instance, &root, End::Front, great.as_slice(), &left, 145);
    assert_eq!(rt; found, (8, Some(0), None));
    let found = below(&instance, &root, End::Back, great.as_slice(), &left, 145);
    assert_eq!(rt; found, (8, Some(8), Some(8)));
    Ok(())
}

/// Seventeen jobs on two machines: job `j` takes `j` on the first and `100 + j` on the second.
static SEVENTEEN_JOBS: [u32; 34] = [
    1, 2, 3, 4, 5, 6, 7, 8, 9, 10, 11, 12, 13, 14, 15, 16, 17, 101, 102, 103, 104, 105, 106, 107,
    108, 109, 110, 111, 112, 113, 114, 115, 116, 117,
];

/// Seventeen jobs on two machines, of which job `j` takes `j` on the first and `100 + j` on the second: two groups, and
/// the last job, which is alone in the second, stands in each of its lanes.
#[test]
fn groups_of_seventeen_jobs(rt: HostRuntime) -> Result<(), Fail> {
    let instance = Instance::new(rt.alloc(), 17, 2, &SEVENTEEN_JOBS)?;
    let groups = groups::<u16x16>(rt.alloc(), &instance)?;
    assert_eq!(rt; groups.len(), 2);
    for lane in 0..LANES {
        let job = lane as u32 + 1;
        assert_eq!(rt; groups[0][0].at(lane), job);
        assert_eq!(rt; groups[0][1].at(lane), 100 + job);
        assert_eq!(rt; groups[1][0].at(lane), 17);
        assert_eq!(rt; groups[1][1].at(lane), 117);
    }
    Ok(())
}

/// The children of three jobs at the front have the bounds 14, 13 and 10: below 14 are the last two.
#[test]
fn marks_of_three_children(rt: HostRuntime) -> Result<(), Fail> {
    let instance = Instance::new(rt.alloc(), 3, 3, &[4, 0, 0, 0, 8, 2, 4, 0, 1])?;
    assert_eq!(rt; time_of_all(&instance, 2), 10);
    let groups = groups::<u16x16>(rt.alloc(), &instance)?;
    let root = Node::root(&instance);
    let left = Marks::first(3);
    let found = below(&instance, &root, End::Front, groups.as_slice(), &left, 14);
    assert_eq!(rt; found, (2, Some(1), None));
    Ok(())
}

/// Marks of all places.
#[test]
fn marks_of_all_places(rt: HostRuntime) {
    let mut marks = Marks::first(800);
    assert_eq!(rt; marks.count(MAX_GROUPS), 800);
    marks.clear(0);
    marks.clear(799);
    assert_eq!(rt; marks.next(0, MAX_GROUPS), Some(1));
    assert_eq!(rt; marks.next(799, MAX_GROUPS), None);
    marks.set(799);
    assert_eq!(rt; marks.next(799, MAX_GROUPS), Some(799));
    assert_eq!(rt; marks.next(799, MAX_GROUPS - 1), None);
    assert_eq!(rt; marks.pop(MAX_GROUPS), Some(1));
    assert_eq!(rt; marks.count(MAX_GROUPS), 798);
    assert_eq!(rt; Marks::none().pop(MAX_GROUPS), None);
}
