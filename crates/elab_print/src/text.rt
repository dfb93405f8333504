//! Files.
ghost use Rattle.std.specs.Prelude.{◌≡◌, ◌<◌, ◌^◌, IfErr, IfOk, Ok, length};
ghost use Rattle.print_model.specs.Printed.{file_text};
ghost use Rattle.elab_print.specs.Layouts.{IsFaultOf, all_written};

use crate::part::{PartStop, put, put_line};
use cdle_model::Text;
use elab_tree::OutItem;
use std::alloc::Global;

/// Why items are not printed: that one, counted from 0, nests more than 1,024 parentheses, or memory is wanted.
#[derive(Clone, Copy, Debug, PartialEq, Eq)]
pub enum PrintFault {
    TooDeep { item: u32 },
    NoMemory,
}

/// The text of a file for these items, over the names of all items by their numbers, theirs last.
#[tactic(auto, using(crate::proofs::Lines::line_step, crate::proofs::Lines::line_too_deep, crate::proofs::Lines::last_line, crate::proofs::Lines::first_line))]
pub fn print_core(alloc: Global, items: &[OutItem], names: &[Text]) -> Result<Vec<u8>, PrintFault>
    requires { length items.now < 2 ^ 32 }
    ensures ok { IfOk result (λ text. file_text names.now (all_written items.now) ≡ Ok text.items) }
    ensures err { IfErr result (IsFaultOf (file_text names.now (all_written items.now))) }
{
    let mut out = String::new(alloc);
    if let Err(_) = put("core 1\n", &mut out) {
        return Err(PrintFault::NoMemory);
    }
    let mut number: u32 = 0;
    let mut rest = items;
    'items: while let Some((item, others)) = rest.split_first() {
        match put_line(item, names, &mut out) {
            Ok(()) => {}
            Err(PartStop::TooDeep) => return Err(PrintFault::TooDeep { item: number }),
            Err(PartStop::NoMemory) => return Err(PrintFault::NoMemory),
        }
        number += 1;
        rest = others;
    }
    Ok(out.into_bytes())
}
