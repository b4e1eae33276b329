//! Eight numbers side by side. The loops are short, so that the compiler packs them.

ghost use Rattle.std.specs.Prelude.{◌≡◌, ℕ, ◌+◌, ◌-◌, ◌<◌, ◌≤◌, true, max, length, slice_index};
ghost use Rattle.flow_search.specs.internal.Columns.{IsLeastOfOthers, most_columns};

use crate::few_left::group::COLUMNS;

/// For each column the least number of the other columns.
#[inline(always)]
pub(crate) fn others(numbers: &[u32; COLUMNS]) -> [u32; COLUMNS]
    ensures size { length result ≡ most_columns }
    ensures each { (column : ℕ) → column < most_columns →
        IsLeastOfOthers numbers.now column (slice_index result column) }
{
    let pair_0 = numbers[0].min(numbers[4]);
    let pair_1 = numbers[1].min(numbers[5]);
    let pair_2 = numbers[2].min(numbers[6]);
    let pair_3 = numbers[3].min(numbers[7]);
    let low = pair_0.min(pair_1);
    let high = pair_2.min(pair_3);
    let far_0 = pair_1.min(high);
    let far_1 = pair_0.min(high);
    let far_2 = pair_3.min(low);
    let far_3 = pair_2.min(low);
    [
        numbers[4].min(far_0),
        numbers[5].min(far_1),
        numbers[6].min(far_2),
        numbers[7].min(far_3),
        numbers[0].min(far_0),
        numbers[1].min(far_1),
        numbers[2].min(far_2),
        numbers[3].min(far_3),
    ]
}

/// The numbers without that at a place. The last one stands twice.
#[inline(always)]
pub(crate) fn without_place(numbers: &[u8; COLUMNS], place: usize) -> [u8; COLUMNS]
    ensures before { (k : ℕ) → k < place → k < most_columns → slice_index result k ≡ slice_index numbers.now k }
    ensures after { (k : ℕ) → place ≤ k → k < most_columns - 1 →
        slice_index result k ≡ slice_index numbers.now (k + 1) }
{
    let mut made = [0u8; COLUMNS];
    for k in 0..COLUMNS {
        made[k] = if k < place {
            numbers[k]
        } else {
            numbers[(k + 1).min(COLUMNS - 1)]
        };
    }
    made
}

/// In each column the number, or one that is the same for all where that is greater.
#[inline(always)]
pub(crate) fn at_least(numbers: &[u32; COLUMNS], least: u32) -> [u32; COLUMNS]
    ensures size { length result ≡ most_columns }
    ensures each { (column : ℕ) → column < most_columns →
        slice_index result column ≡ max (slice_index numbers.now column) least }
{
    let mut made = [0u32; COLUMNS];
    for column in 0..COLUMNS {
        made[column] = numbers[column].max(least);
    }
    made
}

/// The greater number in each column.
#[inline(always)]
pub(crate) fn greater(numbers: &[u32; COLUMNS], others: &[u32; COLUMNS]) -> [u32; COLUMNS]
    ensures size { length result ≡ most_columns }
    ensures each { (column : ℕ) → column < most_columns →
        slice_index result column ≡ max (slice_index numbers.now column) (slice_index others.now column) }
{
    let mut made = [0u32; COLUMNS];
    for column in 0..COLUMNS {
        made[column] = numbers[column].max(others[column]);
    }
    made
}

/// The sum in each column.
#[inline(always)]
pub(crate) fn sums(numbers: &[u32; COLUMNS], others: &[u32; COLUMNS]) -> [u32; COLUMNS]
    requires fits { (column : ℕ) → column < most_columns →
        slice_index numbers.now column + slice_index others.now column ≤ u32.MAX }
    ensures size { length result ≡ most_columns }
    ensures each { (column : ℕ) → column < most_columns →
        slice_index result column ≡ slice_index numbers.now column + slice_index others.now column }
{
    let mut made = [0u32; COLUMNS];
    for column in 0..COLUMNS {
        made[column] = numbers[column] + others[column];
    }
    made
}

/// The difference in each column; 0 where the other number is greater.
#[inline(always)]
pub(crate) fn differences(numbers: &[u32; COLUMNS], others: &[u32; COLUMNS]) -> [u32; COLUMNS]
    ensures size { length result ≡ most_columns }
    ensures each { (column : ℕ) → column < most_columns →
        slice_index result column ≡ slice_index numbers.now column - slice_index others.now column }
{
    let mut made = [0u32; COLUMNS];
    for column in 0..COLUMNS {
        made[column] = numbers[column].saturating_sub(others[column]);
    }
    made
}

/// The flags, without those of the columns whose number reaches a limit.
#[inline(always)]
pub(crate) fn where_less(
    flags: &[u32; COLUMNS],
    numbers: &[u32; COLUMNS],
    limit: u32,
) -> [u32; COLUMNS]
    ensures size { length result ≡ most_columns }
    ensures kept { (column : ℕ) → column < most_columns → slice_index numbers.now column < limit →
        slice_index result column ≡ slice_index flags.now column }
    ensures cut { (column : ℕ) → column < most_columns → limit ≤ slice_index numbers.now column →
        slice_index result column ≡ 0 }
{
    let mut made = [0u32; COLUMNS];
    for column in 0..COLUMNS {
        made[column] = if numbers[column] < limit {
            flags[column]
        } else {
            0
        };
    }
    made
}

/// The flags, without those of the columns whose number is no greater than a limit.
#[inline(always)]
pub(crate) fn where_greater(
    flags: &[u32; COLUMNS],
    numbers: &[u32; COLUMNS],
    limit: u32,
) -> [u32; COLUMNS]
    ensures size { length result ≡ most_columns }
    ensures kept { (column : ℕ) → column < most_columns → limit < slice_index numbers.now column →
        slice_index result column ≡ slice_index flags.now column }
    ensures cut { (column : ℕ) → column < most_columns → slice_index numbers.now column ≤ limit →
        slice_index result column ≡ 0 }
{
    let mut made = [0u32; COLUMNS];
    for column in 0..COLUMNS {
        made[column] = if numbers[column] > limit {
            flags[column]
        } else {
            0
        };
    }
    made
}

/// Whether each number is 0.
#[inline(always)]
pub(crate) fn are_zeros(numbers: &[u32; COLUMNS]) -> bool
    ensures { result ≡ true → (column : ℕ) → column < most_columns → slice_index numbers.now column ≡ 0 }
{
    let mut most = 0u32;
    for column in 0..COLUMNS {
        most = most.max(numbers[column]);
    }
    most == 0
}
