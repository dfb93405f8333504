//! Comparisons that were worked out by hand: a line `ROW UNITS SIZE` of the input is one of them, with that many units.
//!
//! Each is printed with its answer and the units that are left, so what is printed is the table of what they came to by hand. The trees are
//! closed, over three items; the rows of a size grow with it. docs/PERFORMANCE.md has what some of them take. The program promises nothing, and
//! stands on `core_compare`, `core_reduce` and `core_tree`.
#![tactic(auto)]

ghost use Rattle.std.specs.Prelude.{◌≡◌};
ghost use Rattle.core_reduce.specs.Sides.{class_trees};
ghost use Rattle.core_compare_rows.specs.Closed.{IsClosed};

mod items;
mod pure;
mod rows;
mod types;

use core_compare::{Answer, compare};
use core_reduce::{Budget, Side, Stop, Value};
use items::three_items;
use pure::{PureShape, pure_side};
use rows::{Row, row_of};
use std::alloc::Global;
use std::{fmt, io};
use types::{TypeShape, functions_side, predicates_side, type_side};

/// A head form, as it is printed.
#[derive(Drop)]
struct Head<'a> {
    value: &'a Value,
}

impl<'a> fmt::Display for Head<'a> {
    fn fmt<W: fmt::Write>(&self, f: &mut fmt::Formatter<W>) -> fmt::Result {
        match self.value {
            Value::Fun(_) => write!(f, "function"),
            Value::Var { var, args } => {
                let arguments = args.len();
                write!(f, "variable {var} of {arguments}")
            }
            Value::Former { former, .. } => write!(f, "{former:?}"),
        }
    }
}

/// The comparison of two closed sides of one class, over the three items.
fn compare_sides(
    alloc: Global,
    left: &Side,
    right: &Side,
    budget: &mut Budget,
) -> Result<Answer, Stop>
    requires class { left.now.class ≡ right.now.class }
    requires left { IsClosed (class_trees left.now.class) left.now.tree }
    requires right { IsClosed (class_trees left.now.class) right.now.tree }
{
    let items = three_items(alloc)?;
    compare(alloc, &items, left, right, budget)
}

fn compare_pure(
    alloc: Global,
    left: PureShape,
    right: PureShape,
    size: u32,
    budget: &mut Budget,
) -> Result<Answer, Stop> {
    let left = pure_side(alloc, left, size)?;
    let right = pure_side(alloc, right, size)?;
    compare_sides(alloc, &left, &right, budget)
}

fn compare_types(
    alloc: Global,
    left: TypeShape,
    right: TypeShape,
    size: u32,
    budget: &mut Budget,
) -> Result<Answer, Stop> {
    let left = type_side(alloc, left, size)?;
    let right = type_side(alloc, right, size)?;
    compare_sides(alloc, &left, &right, budget)
}

fn compare_kinds(alloc: Global, budget: &mut Budget) -> Result<Answer, Stop> {
    let left = functions_side(alloc)?;
    let right = predicates_side(alloc)?;
    compare_sides(alloc, &left, &right, budget)
}

/// The comparison of that row, at that size.
fn compared(alloc: Global, row: Row, size: u32, budget: &mut Budget) -> Result<Answer, Stop> {
    match row {
        Row::Pure(left, right) => compare_pure(alloc, left, right, size, budget),
        Row::Types(left, right) => compare_types(alloc, left, right, size, budget),
        Row::Kinds => compare_kinds(alloc, budget),
    }
}

/// The line with what became of its comparison, and the units that are left.
fn print(rt: &HostRuntime, line: &str, answer: &Result<Answer, Stop>, left: u64) -> io::Result<()> {
    match answer {
        Ok(Answer::Same) => println!(rt; "{line}: same, left {left}"),
        Ok(Answer::Apart { left: a, right: b }) => {
            let a = Head { value: a };
            let b = Head { value: b };
            println!(rt; "{line}: apart at {a} and {b}, left {left}")
        }
        Err(stop) => println!(rt; "{line}: {stop:?}, left {left}"),
    }
}

/// The comparison that the line asks for, printed behind it.
fn compare_line(rt: &HostRuntime, line: &str) -> io::Result<()> {
    let mut words = line.split_whitespace();
    let row = row_of(words.next().unwrap_or(""));
    let units: u64 = words.next().unwrap_or("").parse().unwrap_or(0);
    let size: u32 = words.next().unwrap_or("").parse().unwrap_or(0);
    let Some(row) = row else {
        return println!(rt; "{line}: no such row");
    };
    let mut budget = Budget::new(units);
    let answer = compared(rt.alloc(), row, size, &mut budget);
    print(rt, line, &answer, budget.left)
}

fn main(rt: HostRuntime) -> io::Result<()> {
    for line in rt.lines(rt.alloc()) {
        let line = line?;
        compare_line(&rt, line.as_str())?;
    }
    Ok(())
}
