// Filters of message objects (document 01, "Filters"; document 001, table 1; W-203, W-207), under OSEK COM's names.
#![tactic(auto)]

ghost use Rattle.std.specs.Prelude.{◌&&◌, ◌≡◌, ◌-◌, leb};
ghost use Rattle.memory.specs.Integers.{at_most};
ghost use Rattle.filter.specs.Filters.{passes, greatest_count, next_count, CountFits, filter_of, filter_right};

// A filter with the constants that it needs.
#[derive(Clone, Copy)]
pub enum Filter {
    Always,
    Never,
    MaskedNewEqualsX { mask: u32, x: u32 },
    MaskedNewDiffersX { mask: u32, x: u32 },
    NewIsEqual,
    NewIsDifferent,
    MaskedNewEqualsMaskedOld { mask: u32 },
    MaskedNewDiffersMaskedOld { mask: u32 },
    NewIsWithin { min: u32, max: u32 },
    NewIsOutside { min: u32, max: u32 },
    NewIsGreater,
    NewIsLessOrEqual,
    NewIsLess,
    NewIsGreaterOrEqual,
    OneEveryN { period: u32, offset: u32 },
}

// The filter of a number 0..14 in a table, with its two constants. Any other number is no filter of a right table; it gives
// `Never`: a conversion that may fail would have an error that never comes.
#[tactic(auto, unfolding(crate::specs::Filters::filter_of))]
pub fn filter_of(number: u32, first: u32, second: u32) -> Filter
    ensures { result ≡ filter_of number first second }
{
    match number {
        0 => Filter::Always,
        1 => Filter::Never,
        2 => Filter::MaskedNewEqualsX {
            mask: first,
            x: second,
        },
        3 => Filter::MaskedNewDiffersX {
            mask: first,
            x: second,
        },
        4 => Filter::NewIsEqual,
        5 => Filter::NewIsDifferent,
        6 => Filter::MaskedNewEqualsMaskedOld { mask: first },
        7 => Filter::MaskedNewDiffersMaskedOld { mask: first },
        8 => Filter::NewIsWithin {
            min: first,
            max: second,
        },
        9 => Filter::NewIsOutside {
            min: first,
            max: second,
        },
        10 => Filter::NewIsGreater,
        11 => Filter::NewIsLessOrEqual,
        12 => Filter::NewIsLess,
        13 => Filter::NewIsGreaterOrEqual,
        14 => Filter::OneEveryN {
            period: first,
            offset: second,
        },
        _ => Filter::Never,
    }
}

// Whether a table's record may have this filter number with these two constants: an unused one is zero.
// Tests in this order, and no match on the number: with that the check of the large table takes 241 instructions more, and an indication
// of 8 objects misses its goal (docs/BENCHMARKS.md, "Goals").
pub fn filter_right(number: u32, first: u32, second: u32) -> bool
    ensures { result ≡ filter_right number first second }
{
    if (number == 2) | (number == 3) | (number == 8) | (number == 9) {
        return true;
    }
    if (number == 6) | (number == 7) {
        return second == 0;
    }
    if number == 14 {
        return (1 <= first) & (first <= 255) & (second < first);
    }
    (number <= 13) & (first == 0) & (second == 0)
}

// Whether `new` passes, by old and the count, for an object that is signed or not: values are compared by their ranks. With filter
// 14 a count in its range is below the period and needs no remainder.
#[tactic(auto, using(crate::proofs::Laws::old_tests), unfolding(crate::specs::Filters::passes))]
pub fn passes(signed: bool, filter: Filter, new: u32, old: u32, count: u8) -> bool
    requires { CountFits filter count }
    ensures { result ≡ passes signed filter new old count }
{
    let new_rank = memory::rank(signed, new);
    let old_rank = memory::rank(signed, old);
    match filter {
        Filter::Always => true,
        Filter::Never => false,
        Filter::MaskedNewEqualsX { mask, x } => new & mask == x,
        Filter::MaskedNewDiffersX { mask, x } => new & mask != x,
        Filter::NewIsEqual => new == old,
        Filter::NewIsDifferent => new != old,
        Filter::MaskedNewEqualsMaskedOld { mask } => new & mask == old & mask,
        Filter::MaskedNewDiffersMaskedOld { mask } => new & mask != old & mask,
        Filter::NewIsWithin { min, max } => within(signed, min, new, max),
        Filter::NewIsOutside { min, max } => !within(signed, min, new, max),
        Filter::NewIsGreater => new_rank > old_rank,
        Filter::NewIsLessOrEqual => new_rank <= old_rank,
        Filter::NewIsLess => new_rank < old_rank,
        Filter::NewIsGreaterOrEqual => new_rank >= old_rank,
        Filter::OneEveryN { offset, .. } => u32::from(count) == offset,
    }
}

// Whether `new` is at least min and at most max. Two comparisons: with `contains` of a range of ranks the goal stayed open.
#[tactic(auto, using(crate::proofs::Laws::between))]
fn within(signed: bool, min: u32, new: u32, max: u32) -> bool
    ensures { result ≡ (at_most signed min new && at_most signed new max) }
{
    let new_rank = memory::rank(signed, new);
    (memory::rank(signed, min) <= new_rank) & (new_rank <= memory::rank(signed, max))
}

// The count after one more filtering: it runs to the period less one and returns to 0.
#[tactic(auto, using(crate::proofs::Laws::next_goes, crate::proofs::Laws::next_returns))]
pub fn next_count(filter: Filter, count: u8) -> u8
    requires { CountFits filter count }
    ensures { result ≡ next_count filter count }
{
    if u32::from(count) + 1 < period_of(filter) {
        count + 1
    } else {
        0
    }
}

// Whether a stored count is in the range of the filter with this number and these constants; 0 is in every range.
pub fn count_in_range(number: u32, first: u32, second: u32, count: u8) -> bool
    ensures { result ≡ leb count (greatest_count (filter_of number first second)) }
{
    count == 0 || u32::from(count) < period_of(filter_of(number, first, second))
}

// The period; with another filter 1, so that its count stays 0.
#[tactic(auto, using(crate::proofs::Laws::no_period), unfolding(crate::specs::Filters::greatest_count))]
fn period_of(filter: Filter) -> u32
    ensures { result - 1 ≡ greatest_count filter }
{
    match filter {
        Filter::OneEveryN { period, .. } => period,
        _ => 1,
    }
}
