//! Where a run of many steps ends.

ghost use Rattle.std.specs.Prelude.{◌≡◌, ◌<◌, ◌≤◌, ◌+◌, ℕ, All, true, if◌then◌else◌, Some, length, slice_get, option_map};
ghost use Rattle.std.specs.Result.{result_unwrap_or};
ghost use Rattle.pl0_meaning.specs.Values.{comparison};
ghost use Rattle.pl0_machine.specs.Room.{BeginsStep};
ghost use Rattle.pl0_machine.specs.Asking.{IsInFrame, AreInFrame, MayBeInFrame, MayCount, answer_there, AreTables, number_there};
ghost use Rattle.pl0_machine.specs.Counting.{counters_of, is_due, any_due, passed_at, passed, IsCounted, counted_on, noted_at, stops_at, IsNoted, Arrives};
ghost use Rattle.pl0_machine.specs.LocatedValues.{truth_by, CanTestBy, numbers_there};

use crate::located::{LocatedCondition, truth_of};
use crate::machine::begun_step;
use pl0_meaning::compare;
use pl0_tree::{Relation, StepNumber};
use pl0_unit::FRAME_HEAD;
use std::sync::Arc;

/// A number, a variable of the newest frame, or one of the main block's frame, by its index there.
#[derive(Clone, Copy)]
pub enum Operand {
    Number(i64),
    Variable(usize),
    Main(usize),
}

/// A comparison of two operands.
#[derive(Clone, Copy)]
pub struct Comparison {
    pub relation: Relation,
    pub left: Operand,
    pub right: Operand,
}

/// What has to hold for an arrival. A condition of another shape than a comparison's holds where it faults.
#[derive(Drop)]
pub enum Proviso {
    /// Nothing has to.
    Nothing,
    Comparison(Comparison),
    Condition(Arc<LocatedCondition>),
}

/// Counts arrivals: what has to hold for one, the number of the count, and how many are passed before one is due.
#[derive(Drop)]
pub struct Counter {
    pub proviso: Proviso,
    pub number: usize,
    pub passes: u32,
    /// Whether the count starts over after an arrival that is due.
    pub starts_over: bool,
    /// Whether an arrival that is due stops the program.
    pub stops: bool,
}

/// The marks of a program: a run ends where a step leads to a marked address at which an arrival is due.
#[derive(Drop)]
pub struct Marks {
    /// For each address of the code, whether it is marked.
    pub marked: Vec<bool>,
    /// For each step, the counters of arrivals where it comes next and its address is marked.
    pub counters: Vec<Vec<Counter>>,
}

/// The tables of marks, found once for many steps: which addresses are marked, and the counters of each step.
#[derive(Clone, Copy)]
pub struct Tables<'a> {
    pub marked: &'a [bool],
    pub counters: &'a [Vec<Counter>],
}

/// Returns the tables of marks, if there are marks.
#[inline(always)]
pub fn tables_of(marks: Option<&Marks>) -> Option<Tables<'_>>
    ensures { AreTables (option_map (λ marks. marks.now) marks.entry) result }
{
    match marks {
        None => None,
        Some(marks) => Some(Tables {
            marked: marks.marked.as_slice(),
            counters: marks.counters.as_slice(),
        }),
    }
}

/// Whether an address is marked.
#[inline(always)]
pub fn is_marked(marked: &[bool], at: usize) -> bool
    requires { at < length marked.now }
    ensures { slice_get marked.now at ≡ Some result }
{
    marked[at]
}

/// Returns the number that an operand stands for where the newest frame begins at `base`. The main block's begins at 0.
#[inline(always)]
fn number_of(cells: &[i64], base: usize, operand: Operand) -> i64
    requires { IsInFrame cells.now base operand }
    ensures { result ≡ number_there cells.now base operand }
{
    match operand {
        Operand::Number(number) => number,
        Operand::Variable(index) => cells[base + FRAME_HEAD + index],
        Operand::Main(index) => cells[FRAME_HEAD + index],
    }
}

/// Whether a comparison holds where the newest frame begins at `base`.
#[inline(always)]
fn compares(cells: &[i64], base: usize, asked: &Comparison) -> bool
    requires { AreInFrame cells.now base asked.now }
    ensures { result ≡ comparison asked.now.relation (number_there cells.now base asked.now.left)
        (number_there cells.now base asked.now.right) }
{
    let x = number_of(cells, base, asked.left);
    let y = number_of(cells, base, asked.right);
    compare(asked.relation, x, y)
}

/// Whether a condition holds where the newest frame begins at `base`, or faults. It isn't inlined, so that a comparison
/// doesn't wait for registers.
#[inline(never)]
fn holds_or_faults(cells: &[i64], base: usize, top: usize, asked: &LocatedCondition) -> bool
    requires within { top ≤ length cells.now }
    requires can { CanTestBy (numbers_there cells.now base top) asked.now }
    ensures { result ≡ result_unwrap_or (truth_by (numbers_there cells.now base top) asked.now) true }
{
    truth_of(cells, base, top, asked).unwrap_or(true)
}

/// Whether what is asked holds where the newest frame begins at `base`.
#[inline(always)]
fn holds(cells: &[i64], base: usize, top: usize, proviso: &Proviso) -> bool
    requires within { top ≤ length cells.now }
    requires fits { MayBeInFrame cells.now base top proviso.now }
    ensures { result ≡ answer_there cells.now base top proviso.now }
{
    match proviso {
        Proviso::Nothing => true,
        Proviso::Comparison(comparison) => compares(cells, base, comparison),
        Proviso::Condition(condition) => holds_or_faults(cells, base, top, condition),
    }
}

/// Counts an arrival, if there is one, and returns whether it is due. One that is due isn't counted.
#[inline(always)]
fn arrive(counter: &Counter, counts: &mut [u32], cells: &[i64], base: usize, top: usize) -> bool
    requires within { top ≤ length cells.now }
    requires fits { MayCount cells.now base top (length counts.old) counter.now }
    ensures due { result ≡ is_due (answer_there cells.now base top) counts.old counter.now }
    ensures counts { counts.new ≡ (if result then counts.old
        else passed_at (answer_there cells.now base top) counter.now counts.old) }
{
    if !holds(cells, base, top, &counter.proviso) {
        return false;
    }
    let count = counts[counter.number];
    if counter.passes <= count {
        return true;
    }
    counts[counter.number] = count + 1;
    false
}

/// Whether there is an arrival that is due.
fn is_due(counter: &Counter, counts: &[u32], cells: &[i64], base: usize, top: usize) -> bool
    requires within { top ≤ length cells.now }
    requires fits { MayCount cells.now base top (length counts.now) counter.now }
    ensures { result ≡ is_due (answer_there cells.now base top) counts.now counter.now }
{
    holds(cells, base, top, &counter.proviso) && counter.passes <= counts[counter.number]
}

/// Whether one of these arrivals is due.
fn any_due(counters: &[Counter], counts: &[u32], cells: &[i64], base: usize, top: usize) -> bool
    requires within { top ≤ length cells.now }
    requires fits { All (MayCount cells.now base top (length counts.now)) counters.now }
    ensures { result ≡ any_due (answer_there cells.now base top) counters.now counts.now }
{
    counters
        .iter()
        .any(|counter| is_due(counter, counts, cells, base, top))
}

/// Counts an arrival, if there is one that isn't due.
fn pass(counter: &Counter, counts: &mut [u32], cells: &[i64], base: usize, top: usize)
    requires within { top ≤ length cells.now }
    requires fits { MayCount cells.now base top (length counts.old) counter.now }
    ensures { counts.new ≡ passed_at (answer_there cells.now base top) counter.now counts.old }
{
    let count = counts[counter.number];
    if holds(cells, base, top, &counter.proviso) && count < counter.passes {
        counts[counter.number] = count + 1;
    }
}

/// Counts the arrivals that there are and that aren't due.
fn pass_all(counters: &[Counter], counts: &mut [u32], cells: &[i64], base: usize, top: usize)
    requires within { top ≤ length cells.now }
    requires fits { All (MayCount cells.now base top (length counts.old)) counters.now }
    ensures { counts.new ≡ passed (answer_there cells.now base top) counters.now counts.old }
{
    for counter in counters {
        pass(counter, counts, cells, base, top);
    }
}

/// Counts the arrivals that there are, unless one is due, and returns whether one is.
#[inline(never)]
fn arrive_at_several(
    counters: &[Counter],
    counts: &mut [u32],
    cells: &[i64],
    base: usize,
    top: usize,
) -> bool
    requires within { top ≤ length cells.now }
    requires fits { All (MayCount cells.now base top (length counts.old)) counters.now }
    ensures { IsCounted (answer_there cells.now base top) counters.now counts.old result counts.new }
{
    if any_due(counters, counts, cells, base, top) {
        return true;
    }
    pass_all(counters, counts, cells, base, top);
    false
}

/// Returns the count after an arrival, also one that is due.
#[inline(always)]
fn count_on(counter: &Counter, count: u32) -> u32
    ensures { result ≡ counted_on counter.now count }
{
    if count < counter.passes {
        return count + 1;
    }
    if counter.starts_over { 0 } else { count }
}

/// Counts an arrival, if there is one, and returns whether it is due and stops the program.
#[inline(always)]
fn note(counter: &Counter, counts: &mut [u32], cells: &[i64], base: usize, top: usize) -> bool
    requires within { top ≤ length cells.now }
    requires fits { MayCount cells.now base top (length counts.old) counter.now }
    ensures stops { result ≡ stops_at (answer_there cells.now base top) counts.old counter.now }
    ensures counts { counts.new ≡ noted_at (answer_there cells.now base top) counter.now counts.old }
{
    let asked = &counter.proviso;
    if !holds(cells, base, top, asked) {
        return false;
    }
    let count = counts[counter.number];
    counts[counter.number] = count_on(counter, count);
    counter.passes <= count && counter.stops
}

/// Counts the arrivals that there are, and returns whether one is due and stops the program.
#[inline(always)]
fn note_all(
    counters: &[Counter],
    counts: &mut [u32],
    cells: &[i64],
    base: usize,
    top: usize,
) -> bool
    requires within { top ≤ length cells.now }
    requires fits { All (MayCount cells.now base top (length counts.old)) counters.now }
    ensures { IsNoted (answer_there cells.now base top) counters.now counts.old result counts.new }
{
    let mut stops = false;
    for counter in counters {
        stops |= note(counter, counts, cells, base, top);
    }
    stops
}

/// Counts the arrivals that there are. If a run goes `past` those that are due, it returns whether one stops the program,
/// and else does the same as `arrive_at_several`, at once for one counter.
#[inline(always)]
fn arrive_at(
    past: bool,
    counters: &[Counter],
    counts: &mut [u32],
    cells: &[i64],
    base: usize,
    top: usize,
) -> bool
    requires within { top ≤ length cells.now }
    requires fits { All (MayCount cells.now base top (length counts.old)) counters.now }
    ensures { Arrives past (answer_there cells.now base top) counters.now counts.old result counts.new }
{
    if past {
        return note_all(counters, counts, cells, base, top);
    }
    if let [counter] = counters {
        return arrive(counter, counts, cells, base, top);
    }
    arrive_at_several(counters, counts, cells, base, top)
}

/// Counts the arrivals at the step that begins at a marked address, where the newest frame begins at `base`, as
/// `arrive_at` does.
#[inline(always)]
pub fn arrive_at_step(
    past: bool,
    counters: &[Vec<Counter>],
    begun_steps: &[Option<StepNumber>],
    at: usize,
    counts: &mut [u32],
    cells: &[i64],
    base: usize,
    top: usize,
) -> bool
    requires begins { BeginsStep (slice_get begun_steps.now at) }
    requires within { top ≤ length cells.now }
    requires fits { (n : ℕ) → slice_get begun_steps.now at ≡ Some (Some n)
        → All (MayCount cells.now base top (length counts.old)) (counters_of counters.now n) }
    ensures { (n : ℕ) → slice_get begun_steps.now at ≡ Some (Some n)
        → Arrives past (answer_there cells.now base top) (counters_of counters.now n) counts.old result counts.new }
{
    let step = begun_step(begun_steps, at);
    match counters.get(step) {
        Some(counters) => arrive_at(past, counters, counts, cells, base, top),
        None => false,
    }
}
