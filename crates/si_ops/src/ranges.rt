// The integers of a range.

ghost use Rattle.std.specs.Prelude.{◌≡◌, ◌-◌, ◌+◌, ◌/◌, ◌%◌, ◌-ℤ◌, ◌+ℤ◌, ◌*ℤ◌, ◌<◌, pos, ◌&&◌, ◌||◌, nat_eq, int_lt, unsigned_abs, FitsSigned, if◌then◌else◌};
ghost use Rattle.std.specs.Int.{w64};
ghost use Rattle.si_semantics.specs.Text.{same_int};
ghost use Rattle.si_semantics.specs.Operations as operations;

use si_arena::Steps;

/// Whether an integer lies before the stop of a range, the way that the step goes (Python Standard Library 3.14,
/// "Built-in Types": ranges).
pub fn is_item(at: i64, stop: i64, step: i64) -> bool
    ensures { result ≡ operations.is_item at stop step }
{
    if step >= 0 { at < stop } else { stop < at }
}

// How many items a range has.
fn range_length(start: i64, stop: i64, step: i64) -> u64
    ensures { result ≡ operations.range_length start stop step }
{
    if step >= 0 {
        steps_between(start, stop, step.unsigned_abs())
    } else {
        steps_between(stop, start, step.unsigned_abs())
    }
}

// How many integers, a step apart, lie from `low` on before `high`.
fn steps_between(low: i64, high: i64, step: u64) -> u64
    ensures { result ≡ (if int_lt low high then (unsigned_abs (high -ℤ low) - 1) / step + 1 else 0) }
{
    if low >= high {
        return 0;
    }
    if step == 0 {
        return 1;
    }
    (high.abs_diff(low) - 1) / step + 1
}

/// Whether two ranges have the same items.
pub fn is_same_range(left: &Steps, right: &Steps) -> bool
    ensures { result ≡ operations.same_range left.now.start left.now.stop left.now.step right.now.start right.now.stop right.now.step }
{
    let starts = is_same_int(left.start, right.start);
    let steps = is_same_int(left.step, right.step);
    have_same_items(items_in(left), items_in(right), starts, steps)
}

/// How many items a range has.
pub fn items_in(steps: &Steps) -> u64
    ensures { result ≡ operations.range_length steps.now.start steps.now.stop steps.now.step }
{
    range_length(steps.start, steps.stop, steps.step)
}

/// The item of a range that lies so many steps from its start.
pub fn item_of(steps: &Steps, place: u64) -> i64
    requires { place < operations.range_length steps.now.start steps.now.stop steps.now.step }
    ensures { result ≡ steps.now.start +ℤ pos place *ℤ steps.now.step }
{
    let distance = place * steps.step.unsigned_abs();
    if steps.step >= 0 {
        above(steps.start, distance)
    } else {
        below(steps.start, distance)
    }
}

// The integer so far above another.
fn above(start: i64, distance: u64) -> i64
    requires { FitsSigned w64 (start +ℤ pos distance) }
    ensures { result ≡ start +ℤ pos distance }
{
    (i128::from(start) + i128::from(distance)) as i64
}

// The integer so far below another.
fn below(start: i64, distance: u64) -> i64
    requires { FitsSigned w64 (start -ℤ pos distance) }
    ensures { result ≡ start -ℤ pos distance }
{
    (i128::from(start) - i128::from(distance)) as i64
}

/// Whether an integer is an item of a range.
pub fn is_among(at: i64, steps: &Steps) -> bool
    ensures { result ≡ operations.is_among at steps.now.start steps.now.stop steps.now.step }
{
    if is_item(at, steps.start, steps.step) || !is_item(at, steps.stop, steps.step) {
        return false;
    }
    is_multiple(at.abs_diff(steps.start), steps.step.unsigned_abs())
}

// Whether a number of units is a whole number of steps.
fn is_multiple(distance: u64, step: u64) -> bool
    ensures { result ≡ nat_eq (distance % step) 0 }
{
    if step == 0 {
        return distance == 0;
    }
    distance % step == 0
}

// Whether two integers are equal.
fn is_same_int(a: i64, b: i64) -> bool
    ensures { result ≡ same_int a b }
{
    a == b
}

// Whether ranges of n and m items, that start alike or not and step alike or not, have the same items.
fn have_same_items(n: u64, m: u64, starts: bool, steps: bool) -> bool
    ensures { result ≡ (nat_eq n m && (nat_eq n 0 || (starts && (nat_eq n 1 || steps)))) }
{
    n == m && (n == 0 || (starts && (n == 1 || steps)))
}
