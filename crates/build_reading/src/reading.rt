//! Reading the modules one after the other.
ghost use Rattle.std.specs.Prelude.{◌≡◌, ◌≤◌, ◌<◌, ◌+◌, ◌++◌, [], ◌∷◌, IfErr, IfOk, OnOk, length, nat_lt, slice_get};
ghost use Rattle.surf_parse.specs.Answers.{Grows};
ghost use Rattle.surf_scope.specs.Modules.{spelled_module};
ghost use Rattle.surf_tree.specs.Items.{module_of};
ghost use Rattle.build_reading.specs.Files.{IsUntouched};
ghost use Rattle.build_reading.specs.Order.{imports_of, with_new};
ghost use Rattle.build_reading.specs.Readings.{most_modules};
ghost use Rattle.build_reading.specs.Steps.{ComesFurther, EndsFrom, HasEnded, HasReadAll, IfFault, IsPastMost};

use crate::fault::ReadingFault;
use crate::files::read_module;
use crate::wanted::{add_imports, add_name};
use cdle_folder::Folder;
use cdle_model::{NoMemory, Text};
use cdle_names::{NameId, NameTable};
use std::alloc::Global;
use surf_tree::SrcModule;

/// The most modules of a build.
const MOST_MODULES: usize = 500;

/// Modules in the order in which they were read, with the bytes of their files.
#[derive(Drop)]
pub struct ReadModules {
    pub modules: Vec<SrcModule>,
    /// The bytes of the file of each.
    pub sources: Vec<Vec<u8>>,
}

/// The modules that are read so far, and the names of all that are wanted, these first.
#[derive(Drop)]
struct Reading {
    read: ReadModules,
    order: NameTable,
}

impl Reading {
    /// Nothing is read, and the root is wanted.
    fn new(alloc: Global, root: &str) -> Result<Reading, NoMemory>
        ensures modules { IfOk result (λ r. r.read.modules.items ≡ []) }
        ensures sources { IfOk result (λ r. r.read.sources.items ≡ []) }
        ensures order { IfOk result (λ r. r.order ≡ root.now ∷ []) }
    {
        let mut order = NameTable::new(alloc);
        add_name(alloc, root, &mut order)?;
        let read = ReadModules {
            modules: Vec::new(alloc),
            sources: Vec::new(alloc),
        };
        Ok(Reading { read, order })
    }

    /// Whether a module is wanted that is not read.
    fn is_open(&self) -> bool
        ensures { result ≡ nat_lt (length self.now.read.modules.items) (length self.now.order) }
    {
        self.read.modules.len() < self.order.len() as usize
    }

    /// The name of the next module, or that it is one too many.
    fn next_name(&self, alloc: Global) -> Result<Text, ReadingFault>
        requires open { length self.now.read.modules.items < length self.now.order }
        requires few { length self.now.read.modules.items ≤ most_modules }
        ensures name { IfOk result (λ name. slice_get self.now.order (length self.now.read.modules.items) ≡ Some name) }
        ensures few { OnOk result (length self.now.read.modules.items < most_modules) }
        ensures ended { IfErr result (IfFault (IsPastMost self.now.order (length self.now.read.modules.items))) }
    {
        let number = self.read.modules.len();
        let name = Text::new(alloc, self.order.text(NameId(number as u32)))?;
        if number == MOST_MODULES {
            return Err(ReadingFault::TooMany { name });
        }
        Ok(name)
    }

    /// Adds a module that was read, and its imports to the names that are wanted.
    fn add(
        &mut self,
        alloc: Global,
        module: SrcModule,
        bytes: Vec<u8>,
        names: &NameTable,
    ) -> Result<(), NoMemory>
        ensures modules { OnOk result (self.new.read.modules.items ≡ self.old.read.modules.items ++ «module» ∷ []) }
        ensures sources { OnOk result (self.new.read.sources.items ≡ self.old.read.sources.items ++ bytes ∷ []) }
        ensures order { OnOk result (self.new.order ≡ with_new self.old.order (imports_of (spelled_module names.now (module_of «module»)))) }
    {
        add_imports(alloc, &module.imports, names, &mut self.order)?;
        self.read.modules.push(module)?;
        self.read.sources.push(bytes)?;
        Ok(())
    }

    /// Reads the next module.
    fn read_next<F: Folder>(
        &mut self,
        alloc: Global,
        names: &mut NameTable,
        folder: &mut F,
    ) -> Result<(), ReadingFault>
        requires open { length self.old.read.modules.items < length self.old.order }
        requires few { length self.old.read.modules.items ≤ most_modules }
        ensures files { (F.state folder.new).files ≡ (F.state folder.old).files }
        ensures write_faults { (F.state folder.new).write_faults ≡ (F.state folder.old).write_faults }
        ensures read_faults { (F.state folder.old).read_faults ≤ (F.state folder.new).read_faults }
        ensures absences { (F.state folder.old).absences ≤ (F.state folder.new).absences }
        ensures grows { Grows names.old names.new }
        ensures count { OnOk result (length self.new.read.modules.items ≡ length self.old.read.modules.items + 1) }
        ensures further { OnOk result (ComesFurther (F.state folder.old) (F.state folder.new) names.old names.new self.old self.new) }
        ensures ended { IfErr result (IfFault (EndsFrom (F.state folder.old) (F.state folder.new) names.old self.old)) }
    {
        let name = self.next_name(alloc)?;
        let (module, bytes) = read_module(alloc, name.as_str(), names, folder)?;
        self.add(alloc, module, bytes, names)?;
        Ok(())
    }
}

/// The modules of the build of that root: its own, and each that one of them imports, in reading order.
pub fn read_modules<F: Folder>(
    alloc: Global,
    root: &str,
    names: &mut NameTable,
    folder: &mut F,
) -> Result<ReadModules, ReadingFault>
    ensures untouched { IsUntouched (record { before = F.state folder.old; after = F.state folder.new }) }
    ensures read_faults { (F.state folder.old).read_faults ≤ (F.state folder.new).read_faults }
    ensures absences { (F.state folder.old).absences ≤ (F.state folder.new).absences }
    ensures grows { Grows names.old names.new }
    ensures read { IfOk result (HasReadAll (record { before = F.state folder.old; after = F.state folder.new }) root.now names.new) }
    ensures ended { IfErr result (IfFault (HasEnded (record { before = F.state folder.old; after = F.state folder.new }) root.now)) }
{
    let mut reading = Reading::new(alloc, root)?;
    'modules: while reading.is_open() {
        reading.read_next(alloc, names, folder)?;
    }
    Ok(reading.read)
}
