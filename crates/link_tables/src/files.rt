ghost use Rattle.std.specs.Prelude.{◌≡◌, ◌<◌, ◌≤◌, ◌^◌, [], length, IfOk, OnOk, OnErr};
ghost use Rattle.link_tables.specs.Files as spec;
ghost use Rattle.link_tables.specs.UsedNames.{with_name, place_of};

use crate::used_names::UsedNames;
use goasm_base::{List, Memory, Name};
use std::alloc::Global;
use std::marker::Model;

/// The source files of a table: those of a build that its lines use, each name once, in the order of first use. A name that
/// two files of the build have stands once.
#[derive(Drop)]
pub struct Files<'a> {
    build: &'a [Name],
    used: UsedNames<'a>,
    // The index of each file of the build that was used, so that no name is looked up twice.
    known: Vec<Option<u32>>,
}

impl<'a> Model for Files<'a> {
    ghost use Rattle.link_tables.specs.Files.{FileNames, AreKnown};

    ghost Value = { FileNames };

    ghost view = { λ files. record { build = files.build.now; used = files.used } };

    ghost invariant = { λ files. AreKnown files.build.now files.used files.known.items };
}

impl<'a> Files<'a> {
    /// None of the files of a build.
    pub fn new(alloc: Global, build: &'a [Name]) -> Result<Self, Memory>
        requires { length build.now < 2 ^ 32 }
        ensures { IfOk result (λ files. files ≡ (record { build = build.now; used = [] })) }
    {
        Ok(Files {
            build,
            used: UsedNames::new(alloc),
            known: vec![in alloc; None; build.len()]?,
        })
    }

    /// The index of the file of this number in the build, whose name is added at its first use. There are at most as many names
    /// as the build has files.
    pub fn number(&mut self, file: u32) -> Result<u32, Memory>
        requires { file < length self.old.build }
        ensures build { self.new.build ≡ self.old.build }
        ensures used { OnOk result (self.new.used ≡ with_name self.old.used (spec.file_name self.old.build file)) }
        ensures place { IfOk result (λ index. index ≡ place_of self.new.used (spec.file_name self.old.build file)) }
        ensures within { IfOk result (λ index. index < length self.new.used) }
        ensures few { length self.new.used ≤ length self.new.build }
        ensures err { OnErr result (self.new.used ≡ self.old.used) }
    {
        if let Some(index) = self.known[file as usize] {
            return Ok(index);
        }
        let build = self.build;
        let index = self.used.add(build[file as usize].as_slice())? as u32;
        self.known[file as usize] = Some(index);
        Ok(index)
    }

    /// The names that were used.
    #[tactic(auto, using(crate::proofs::PlaceLemmas::few_used))]
    pub fn names(&self, alloc: Global) -> Result<List<Name>, Memory>
        ensures names { IfOk result (λ names. names ≡ self.now.used) }
        ensures few { length self.now.used ≤ length self.now.build }
    {
        self.used.list(alloc)
    }
}
