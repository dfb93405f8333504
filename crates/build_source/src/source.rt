//! The module's file: read, and elaborated to the text of its Core file.
ghost use Rattle.std.specs.Prelude.{◌≡◌, ◌≤◌, IfErr, IfOk, length};
ghost use Rattle.build_module.specs.Answers.{IsModuleFault};
ghost use Rattle.build_module.specs.ModuleAnswers.{IsModuleAnswer};
ghost use Rattle.build_source.specs.Files.{IsUntouched, source_file};
ghost use Rattle.build_source.specs.Progress.{EndsBefore, EndsGiving, HasGiven, IfEnded};

use crate::end::end_of;
use crate::files::{read_file_for, source_file};
use build_module::{ModuleFault, module_text};
use build_outcome::{Done, Stop};
use cdle_folder::Folder;
use cdle_model::NoMemory;
use std::alloc::Global;

/// The most bytes of a module's file.
const MOST_BYTES: u64 = 1_048_576;

/// The text of the Core file that the file of the module of that name gives by the surface rules.
pub fn source_text<F: Folder>(
    alloc: Global,
    name: &str,
    budget: u64,
    folder: &mut F,
) -> Result<Vec<u8>, Stop>
    ensures untouched { IsUntouched (record { before = F.state folder.old; after = F.state folder.new }) }
    ensures read_faults { (F.state folder.old).read_faults ≤ (F.state folder.new).read_faults }
    ensures absences { (F.state folder.old).absences ≤ (F.state folder.new).absences }
    ensures given { IfOk result (λ text. HasGiven budget (record { before = F.state folder.old; after = F.state folder.new }) name.now text.items) }
    ensures ended { IfErr result (IfEnded (EndsBefore budget (record { before = F.state folder.old; after = F.state folder.new }) name.now)) }
{
    let file = source_file(alloc, name)?;
    let source = read_file_for(alloc, name, file.as_str(), MOST_BYTES, folder)?;
    match module_text(alloc, &source, name, budget) {
        Ok(text) => Ok(text),
        Err(fault) => {
            let done = source_end(alloc, name, file.as_str(), &source, budget, fault)?;
            Err(Stop::Ended(done))
        }
    }
}

/// The end of a call on a module whose file has these bytes and comes to no text.
fn source_end(
    alloc: Global,
    name: &str,
    file: &str,
    source: &[u8],
    budget: u64,
    fault: ModuleFault,
) -> Result<Done, NoMemory>
    requires short { length source.now ≤ 1048576 }
    requires file { file.now ≡ source_file name.now }
    requires fault { IsModuleFault (IsModuleAnswer budget source.now name.now) fault }
    ensures { IfOk result (EndsGiving budget name.now source.now) }
{
    let outcome = end_of(alloc, file, source, budget, fault)?;
    Done::new(alloc, Some(name), outcome, source)
}
