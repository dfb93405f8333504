//! The laws of the definitions. Each is the contract of a function with an empty body.
ghost use Rattle.std.specs.Prelude.{◌≡◌, List, Some};
ghost use Rattle.cdle_folder.specs.Causes.{Quiet};
ghost use Rattle.cdle_folder.specs.Files.{Files};
ghost use Rattle.build_outcome.specs.Changes.{FolderChange};
ghost use Rattle.build_writing.specs.Writing.{IsFaultlessWriting, IsWriting, NamesDiffer, Output, WritingEnd};

/// Where nothing fails, the writing of any files has just one end.
pub fn one_writing_where_nothing_fails()
    ensures there { (files : List Output) → (end : WritingEnd) × IsFaultlessWriting files end }
    ensures one { (files : List Output) (d e : WritingEnd) → IsFaultlessWriting files d → IsFaultlessWriting files e → d ≡ e }
{}

/// Over a folder that tells its files, where no fault was counted and no two files have one name, the writing of these files ended as it does where nothing fails.
pub fn writing_is_the_one_where_nothing_fails()
    ensures { (v : FolderChange) (f : Files) (files : List Output) (end : WritingEnd) → v.before.files ≡ Some f → Quiet v.before.read_faults v.after.read_faults
        → Quiet v.before.write_faults v.after.write_faults → NamesDiffer files → IsWriting v files end → IsFaultlessWriting files end }
{}
