//! The numbers of what modules import.
ghost use Rattle.std.specs.Prelude.{◌≡◌, ◌<◌, ℕ, Contains, IfOk, MatchOption, length, map, slice_get, Some};
ghost use Rattle.std.specs.List.{AllZip};
ghost use Rattle.surf_tree.specs.Items.{module_of};
ghost use Rattle.plan_model.specs.Reading.{AreNumbered, IsCalled};
ghost use Rattle.build_plan.specs.Tables.{names_in, needs_of};

use cdle_model::NoMemory;
use cdle_names::{NameId, Span};
use std::alloc::Global;
use surf_tree::SrcModule;

/// The number of the first module of that name.
fn number_of(modules: &[SrcModule], name: NameId) -> Option<usize>
    ensures { MatchOption result ((i : ℕ) → slice_get (names_in modules.now) i ≡ Some name.0 → ⊥) (λ i. IsCalled (names_in modules.now) i name.0) }
{
    for i in 0..modules.len() {
        let module = &modules[i];
        if module.name.0 == name.0 {
            return Some(i);
        }
    }
    None
}

/// The numbers of the modules of these names, in their order.
fn numbers_of(
    alloc: Global,
    modules: &[SrcModule],
    imports: &[(NameId, Span)],
) -> Result<Vec<usize>, NoMemory>
    ensures { IfOk result (λ js. AllZip (IsCalled (names_in modules.now)) js.items (map (λ i. i.0.0) imports.now)) }
{
    let mut numbers = Vec::new(alloc);
    for import in imports {
        let Some(number) = number_of(modules, import.0) else {
            return Err(NoMemory);
        };
        numbers.push(number)?;
    }
    Ok(numbers)
}

/// The numbers of what each module imports.
pub(crate) fn all_numbers(alloc: Global, modules: &[SrcModule]) -> Result<Vec<Vec<usize>>, NoMemory>
    ensures { IfOk result (λ needs. AreNumbered (map module_of modules.now) (needs_of needs.items)) }
{
    let mut needs = Vec::new(alloc);
    for module in modules {
        let numbers = numbers_of(alloc, modules, module.imports.as_slice())?;
        needs.push(numbers)?;
    }
    Ok(needs)
}

/// The name of the module of that number.
fn name_at(modules: &[SrcModule], number: usize) -> NameId
    requires { number < length modules.now }
    ensures { slice_get (names_in modules.now) number ≡ Some result.0 }
{
    let module = &modules[number];
    module.name
}

/// The names of the modules of these numbers.
pub(crate) fn names_at(
    alloc: Global,
    modules: &[SrcModule],
    numbers: &[usize],
) -> Result<Vec<NameId>, NoMemory>
    requires { (k : ℕ) → Contains numbers.now k → k < length modules.now }
    ensures { IfOk result (λ names. AllZip (λ k x. slice_get (names_in modules.now) k ≡ Some x) numbers.now (map (λ x. x.0) names.items)) }
{
    let mut names = Vec::new(alloc);
    for number in numbers {
        names.push(name_at(modules, *number))?;
    }
    Ok(names)
}
