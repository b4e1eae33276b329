//! Trees with the letters of up to 26 machines.

ghost use Rattle.std.specs.Prelude.{◌≡◌, IfOk};

use crate::changes::replaced;
use crate::greatest::texts::joined;
use crate::greatest::written::is_written;
use crate::instances::two_machines;
use crate::outcomes::is_verdict;
use crate::plans::planned;
use flow_check::{CheckFault, check};
use flow_core::{Instance, InstanceFault};
use flow_pool::{Open, solve};
use std::alloc::Global;
use std::test::Fail;

/// Two jobs on 26 machines, which take 1 on the last machine and 0 on the others.
fn last_of_26_machines(alloc: Global) -> Result<Instance, InstanceFault>
    ensures { IfOk result (λ instance. (instance.jobs ≡ 2) × (instance.machines ≡ 26)) }
{
    let mut times = [0; 52];
    times[50] = 1;
    times[51] = 1;
    Instance::new(alloc, 2, 26, &times)
}

#[test]
fn machine_26_has_the_letter_z(rt: HostRuntime) -> Result<(), Fail> {
    let text = b"flowshop certificate 1\n2 26 0\n2\n2 1\nZ\nend\n";
    let instance = last_of_26_machines(rt.alloc())?;
    assert!(rt; is_written(rt.alloc(), &instance, 0, 1, text, 2)?);
    Ok(())
}

#[test]
fn workers_find_the_letter_z(rt: HostRuntime) -> Result<(), Fail> {
    let instance = last_of_26_machines(rt.alloc())?;
    for version in 1..3u32 {
        let plan = planned(rt.alloc(), &instance, 2, (0, version, 1))?;
        let verdict = solve(&rt, rt.alloc(), &plan, &Open)?.verdict;
        assert!(rt;
            is_verdict(&verdict, 2, &[2, 1], &[b"Z"]),
            "in version {version}"
        );
    }
    Ok(())
}

#[test]
fn letter_z_is_no_machine_of_a_smaller_instance(rt: HostRuntime) -> Result<(), Fail> {
    let text = b"flowshop certificate 1\n3 2 0\n9\n2 3 1\n+BBZ\nend\n";
    let instance = two_machines(rt.alloc())?;
    assert_eq!(rt;
        check(rt.alloc(), &instance, text),
        Err(CheckFault::Tree(5))
    );
    Ok(())
}

/// The times of three jobs on 26 machines. Of the six sequences 2 3 1 has the least makespan, 125. The certificates
/// below and the letters of each list were found by a script over the words of `docs/formats.md`.
static THREE_JOBS: [u32; 78] = [
    4, 3, 8, 3, 3, 3, 5, 2, 2, 2, 4, 1, 4, 2, 6, 7, 5, 0, 5, 8, 1, 6, 0, 2, 8, 1, 5, 9, 4, 0, 6, 2, //
    3, 3, 1, 8, 0, 3, 5, 5, 5, 6, 2, 9, 7, 0, 8, 7, 2, 9, 6, 1, 6, 1, 7, 4, 3, 6, 4, 1, 4, 3, 6, 3, //
    6, 4, 5, 6, 3, 7, 6, 4, 2, 0, 6, 7, 4, 4,
];

/// What the checker answers for the three jobs, with this version, this depth and these trees.
fn answer_of(
    alloc: Global,
    version: u8,
    depth: u8,
    trees: &[u8],
) -> Result<Result<u64, CheckFault>, Fail> {
    let parts: [&[u8]; 7] = [
        b"flowshop certificate ",
        &[version],
        b"\n3 26 ",
        &[depth],
        b"\n125\n2 3 1\n",
        trees,
        b"end\n",
    ];
    let instance = Instance::new(alloc, 3, 26, &THREE_JOBS)?;
    Ok(check(alloc, &instance, joined(alloc, &parts)?.as_slice()))
}

/// A version, trees at depth 1, and the answer.
type Row = (u8, &'static [u8], Result<u64, CheckFault>);

static ROWS: [Row; 6] = [
    (b'2', b"M\n+IZ\n+FQ\n", Ok(125)),
    // Machine 26 has the bound 121 at 1 in version 1, and 137 in version 2.
    (b'2', b"Z\n+ZZ\n+ZZ\n", Ok(125)),
    (b'1', b"Z\n+ZZ\n+ZZ\n", Err(CheckFault::Weak(5))),
    // Machine 25 has the bound 124 at 2 3, and machine 16 at 3 2.
    (b'2', b"M\n+IY\n+FQ\n", Err(CheckFault::Weak(6))),
    (b'2', b"M\n+IZ\n+FP\n", Err(CheckFault::Weak(7))),
    (b'2', b"M\n+IZ\n+F[\n", Err(CheckFault::Tree(7))),
];

#[test]
fn trees_of_26_machines_are_read_in_version_2(rt: HostRuntime) -> Result<(), Fail> {
    for (version, trees, answer) in &ROWS {
        assert_eq!(rt;
            answer_of(rt.alloc(), *version, b'1', trees)?,
            *answer,
            "{trees:?}"
        );
    }
    Ok(())
}

/// A version, and the machines whose bound is at least 125 at 1 2, 1 3, 2 1, 2 3, 3 1 and 3 2.
static STRONG: [(u8, [&[u8]; 6]); 2] = rows! {
    b'1', [b"JKLMNOPQRSTUVWXYZ", b"IJKLMNOPQRSTUVWXYZ", b"IJKLMNX", b"Z", b"FGHIJKLMNOPQZ", b"QRSTUVWXYZ"];
    b'2', [b"JKLMNOPQRSTUVWXYZ", b"IJKLMNOPQRSTUVWXYZ", b"IJKLMNOPQRSTUVWXYZ", b"Z", b"FGHIJKLMNOPQRSTUVWXYZ",
        b"QRSTUVWXYZ"];
};

#[test]
fn each_letter_of_26_machines_is_tested(rt: HostRuntime) -> Result<(), Fail> {
    for (version, lists) in &STRONG {
        for (index, strong) in lists.iter().enumerate() {
            for letter in b'A'..=b'Z' {
                let trees = replaced(
                    rt.alloc(),
                    b"J\nI\nI\nZ\nF\nQ\n",
                    index.saturating_mul(2),
                    1,
                    &[letter],
                )?;
                let found = answer_of(rt.alloc(), *version, b'2', trees.as_slice())?;
                let is_strong = strong.contains(&letter);
                let answer = if is_strong {
                    Ok(125)
                } else {
                    Err(CheckFault::Weak(index + 5))
                };
                assert_eq!(rt; found, answer, "{letter} at {index}");
            }
        }
    }
    Ok(())
}
