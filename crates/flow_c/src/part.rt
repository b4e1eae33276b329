//! Parts of a search, as numbers.

ghost use Rattle.std.specs.Prelude.{◌≡◌, ◌++◌, All, IfOk};
ghost use Rattle.std.specs.List.{flat_map};
ghost use Rattle.flow_c.specs.Searches as searches;
ghost use Rattle.flow_c.specs.internal.Parts.{IsList, IsShort};

use flow_directions::Part;
use flow_shop::End;
use std::alloc::{AllocError, Global};

/// Puts the numbers of three lists behind others, those of the last one with a number.
fn push_lists(
    numbers: &mut Vec<u16>,
    first: &[u16],
    last: &[u16],
    jobs: &[u16],
    end: u16,
) -> Result<(), AllocError>
    requires first { IsList first.now }
    requires last { IsList last.now }
    requires jobs { IsList jobs.now }
    ensures { IfOk result
        (λ _. numbers.new.items ≡ numbers.old.items ++ searches.listed first.now last.now jobs.now end) }
{
    numbers.push(first.len() as u16)?;
    numbers.push(last.len() as u16)?;
    numbers.push(jobs.len() as u16)?;
    numbers.push(end)?;
    numbers.extend_from_slice(first)?;
    numbers.extend_from_slice(last)?;
    numbers.extend_from_slice(jobs)?;
    Ok(())
}

/// The number of an end.
fn number_of(end: End) -> u16
    ensures { result ≡ searches.number_of end }
{
    match end {
        End::Front => 1,
        End::Back => 2,
    }
}

/// Puts the numbers of a part behind others.
fn push_part(numbers: &mut Vec<u16>, part: &Part) -> Result<(), AllocError>
    requires { IsShort part.now }
    ensures { IfOk result (λ _. numbers.new.items ≡ numbers.old.items ++ searches.numbers_of part.now) }
{
    match part {
        Part::Node { first, last } => {
            push_lists(numbers, first.as_slice(), last.as_slice(), &[], 0)
        }
        Part::Children {
            first,
            last,
            end,
            jobs,
        } => push_lists(
            numbers,
            first.as_slice(),
            last.as_slice(),
            jobs.as_slice(),
            number_of(*end),
        ),
    }
}

/// The numbers of parts, one after the other.
pub(crate) fn numbers_of(alloc: Global, parts: &[Part]) -> Result<Vec<u16>, AllocError>
    requires { All IsShort parts.now }
    ensures { IfOk result (λ numbers. numbers.items ≡ flat_map searches.numbers_of parts.now) }
{
    let mut numbers = Vec::new(alloc);
    for part in parts {
        push_part(&mut numbers, part)?;
    }
    Ok(numbers)
}
