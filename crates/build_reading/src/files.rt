//! The file of one module, read.
ghost use Rattle.std.specs.Prelude.{◌≡◌, ◌≤◌, Err, IfErr, IfOk, List, string_bytes};
ghost use Rattle.scope_model.specs.ScopeNames.{Text as Name};
ghost use Rattle.source_model.specs.Source.{Module};
ghost use Rattle.surf_parse.specs.Answers.{Grows};
ghost use Rattle.surf_scope.specs.Modules.{spelled_module};
ghost use Rattle.surf_source.specs.Answers.{IsRead};
ghost use Rattle.surf_tree.specs.Items.{module_of};
ghost use Rattle.build_model.specs.ByText.{IsOfTable};
ghost use Rattle.build_model.specs.SourceFiles.{IsSource};
ghost use Rattle.build_reading.specs.Files.{source_file};
ghost use Rattle.build_reading.specs.Steps.{EndsAt, HasRead, IfFault, IsNoModule, IsStoppedBy};

use crate::fault::{ReadingFault, Unread};
use cdle_folder::{Folder, ReadStop};
use cdle_model::{NoMemory, Text};
use cdle_names::NameTable;
use std::alloc::Global;
use surf_source::{SourceFault, read_source};
use surf_tree::SrcModule;

/// The most bytes of a module's file.
const MOST_BYTES: u64 = 1_048_576;

/// The file of the module of that name.
fn source_file(alloc: Global, name: &str) -> Result<String, NoMemory>
    ensures { IfOk result (λ file. string_bytes file ≡ source_file name.now) }
{
    Ok(format!(in alloc; "{name}.cdle")?)
}

/// That the file of the module of that name gives nothing, for this reason.
fn unread(alloc: Global, name: &str, stop: ReadStop) -> ReadingFault
    ensures { IfFault (IsStoppedBy name.now stop) result }
{
    let stop = match stop {
        ReadStop::Failed => Unread::Failed,
        ReadStop::Absent => Unread::Absent,
        ReadStop::TooLong => Unread::TooLong,
        ReadStop::NoMemory => return ReadingFault::NoMemory,
    };
    match Text::new(alloc, name) {
        Ok(name) => ReadingFault::Unread { name, stop },
        Err(_) => ReadingFault::NoMemory,
    }
}

/// The bytes of the file of the module of that name.
fn read_file<F: Folder>(alloc: Global, name: &str, folder: &mut F) -> Result<Vec<u8>, ReadingFault>
    ensures files { (F.state folder.new).files ≡ (F.state folder.old).files }
    ensures write_faults { (F.state folder.new).write_faults ≡ (F.state folder.old).write_faults }
    ensures read_faults { (F.state folder.old).read_faults ≤ (F.state folder.new).read_faults }
    ensures absences { (F.state folder.old).absences ≤ (F.state folder.new).absences }
    ensures read { IfOk result (λ bytes. HasRead (record { before = F.state folder.old; after = F.state folder.new }) name.now bytes.items) }
    ensures ended { IfErr result (IfFault (EndsAt (record { before = F.state folder.old; after = F.state folder.new }) name.now)) }
{
    let file = source_file(alloc, name)?;
    match folder.read(alloc, file.as_str(), MOST_BYTES) {
        Ok(bytes) => Ok(bytes),
        Err(stop) => Err(unread(alloc, name, stop)),
    }
}

/// That these bytes of the file of the module of that name are no module.
fn no_module(alloc: Global, name: &str, bytes: Vec<u8>, fault: SourceFault) -> ReadingFault
    requires { (names : List Name) × IsRead bytes.items name.now names (Err fault) }
    ensures { IfFault (IsNoModule name.now bytes.items) result }
{
    if fault == SourceFault::NoMemory {
        return ReadingFault::NoMemory;
    }
    match Text::new(alloc, name) {
        Ok(name) => ReadingFault::Source { name, bytes, fault },
        Err(_) => ReadingFault::NoMemory,
    }
}

/// The module of that name, with the bytes of its file.
pub(crate) fn read_module<F: Folder>(
    alloc: Global,
    name: &str,
    names: &mut NameTable,
    folder: &mut F,
) -> Result<(SrcModule, Vec<u8>), ReadingFault>
    ensures files { (F.state folder.new).files ≡ (F.state folder.old).files }
    ensures write_faults { (F.state folder.new).write_faults ≡ (F.state folder.old).write_faults }
    ensures read_faults { (F.state folder.old).read_faults ≤ (F.state folder.new).read_faults }
    ensures absences { (F.state folder.old).absences ≤ (F.state folder.new).absences }
    ensures grows { Grows names.old names.new }
    ensures numbers { IfOk result (λ r. IsOfTable names.new (module_of r.0)) }
    ensures read { IfOk result (λ r. HasRead (record { before = F.state folder.old; after = F.state folder.new }) name.now r.1.items) }
    ensures says { IfOk result (λ r. IsSource r.1.items name.now (spelled_module names.new (module_of r.0))) }
    ensures ended { IfErr result (IfFault (EndsAt (record { before = F.state folder.old; after = F.state folder.new }) name.now)) }
{
    let bytes = read_file(alloc, name, folder)?;
    match read_source(alloc, &bytes, name, names) {
        Ok(module) => Ok((module, bytes)),
        Err(fault) => Err(no_module(alloc, name, bytes, fault)),
    }
}
