//! What the definitions of `specs/` say of runs. These functions do nothing; their contracts are
//! the laws.
ghost use Rattle.relay_index.specs.Laws.{RunIsOfOutside, AppliedIsStored, DeletedKeepsVersion};
ghost use Rattle.relay_index.specs.Laws.{RepeatIsConflict, ScriptsMay};

/// The result of running a write, also as part of a request, is an outcome that a versioned run may
/// have; and if an outside shows the index before the run, the outside with the run recorded shows
/// the index after it.
pub fn runs_are_of_the_outside()
    ensures { RunIsOfOutside }
{}

/// After a write was applied, its version is stored, even if it deleted the document, and its
/// source is that of the document.
pub fn runs_store()
    ensures stored { AppliedIsStored }
    ensures deleted { DeletedKeepsVersion }
{}

/// A write that was applied is a conflict if it is run again.
pub fn runs_repeat()
    ensures { RepeatIsConflict }
{}

/// What a script chooses for an item is something that an index may choose.
pub fn scripts_may()
    ensures { ScriptsMay }
{}
