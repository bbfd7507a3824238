//! How many lines an operation has, by its action line, and what a fault of that line is about.
ghost use Rattle.std.specs.Prelude.{◌≡◌, ℕ, List, IfOk, IfSome, IfNone};
ghost use Rattle.serde_json.specs.Data.{Data, Members, put};
ghost use Rattle.relay_ndjson.specs.Metadata.{is_field};
ghost use Rattle.relay_sift.specs.Asking.{GivesAction, GivesMember, HoldsUnknown, IsAction, IsGiven};
ghost use Rattle.relay_sift.specs.Asking.{IsSubject, IsUnknown, extent_named, extent_of};

use relay_json::{Fields, Gather, ReadFault, Scratch, Walk, plain_text, read_sole_object};
use relay_ndjson::LineKind;
use std::alloc::AllocError;

/// How many lines belong to an operation, as its action line tells.
#[derive(Clone, Copy, Debug, PartialEq, Eq)]
pub enum Extent {
    /// It cannot be told: the line is no action line of the bulk API.
    Lost,
    /// The action line alone.
    One,
    /// The action line and its source.
    Two,
}

/// What a fault of an action line is about. A name that is not plain ASCII, or that is longer than
/// [`NAME_LIMIT`] bytes, is not given.
#[derive(Clone, Copy, Debug, PartialEq, Eq)]
pub enum Subject<'t> {
    /// Nothing that has a name.
    None,
    /// The action of this name.
    Action(&'t str),
    /// The member of the metadata of this name.
    Member(&'t str),
}

/// The maximum length of a name that is given, in bytes.
pub const NAME_LIMIT: usize = 64;

/// The first member of metadata that none may have.
#[derive(Clone, Copy)]
pub(crate) struct Unknown<'t> {
    pub name: Option<&'t str>,
}

impl<'t> Unknown<'t> {
    // One more member.
    fn see(&mut self, name: &'t str)
        ensures { (d : Data) (ms : Members) → HoldsUnknown self.old ms
            → HoldsUnknown self.new (put name.now d ms) }
    {
        if is_field(name) {
            return;
        }
        if self.name.is_none() {
            self.name = Some(name);
        }
    }
}

// Whether metadata may have a member with this name.
fn is_field(name: &str) -> bool
    ensures { result ≡ is_field name.now }
{
    name == "_id" || name == "_index" || name == "version" || name == "version_type"
}

impl<'t> Gather<'t> for Unknown<'t> {
    ghost Holds = { HoldsUnknown };

    ghost MayFail = { ⊥ };

    fn member(&mut self, name: &'t str, walk: &mut Walk<'t>) -> Result<(), ReadFault> {
        let _leaf = walk.leaf()?;
        self.see(name);
        Ok(())
    }
}

impl<'t> Fields<'t> for Unknown<'t> {
    fn none() -> Unknown<'t> {
        Unknown { name: None }
    }
}

fn extent_named(name: &str) -> Extent
    ensures { result ≡ extent_named name.now }
{
    match name {
        "delete" => Extent::One,
        "index" | "create" | "update" => Extent::Two,
        _ => Extent::Lost,
    }
}

/// How many lines belong to the operation that begins with this line, which is not blank. `scratch`
/// is a buffer that serves one line after another: no result depends on what is in it, and it only
/// grows. `AllocError`: an allocation for it failed.
pub fn extent_of(line: &[u8], scratch: &mut Scratch) -> Result<Extent, AllocError>
    ensures { IfOk result (λ extent. extent ≡ extent_of line.now) }
{
    match read_sole_object::<Unknown>(line, scratch) {
        Ok(Some((name, _))) => Ok(extent_named(name)),
        Ok(None) => Ok(Extent::Lost),
        Err(ReadFault::NotJson) => Ok(Extent::Lost),
        Err(ReadFault::Memory) => Err(AllocError),
    }
}

// The name, if it is given.
fn given(name: &str) -> Option<&str>
    ensures same { IfSome result (λ text. text.now ≡ name.now) }
    ensures given { IfSome result (λ text. IsGiven name.now) }
    ensures none { IfNone result (¬ IsGiven name.now) }
{
    if name.len() > NAME_LIMIT {
        return None;
    }
    plain_text(name.as_bytes())
}

// The action of this name, if it is given.
fn action_subject(name: &str) -> Subject<'_>
    ensures { GivesAction name.now result }
{
    match given(name) {
        Some(name) => Subject::Action(name),
        None => Subject::None,
    }
}

// The member that was found, if there is one and its name is given.
fn member_subject<'t>(unknown: Option<&'t str>) -> Subject<'t>
    ensures { (ms : Members) → HoldsUnknown (record { name = unknown.entry }) ms → GivesMember ms result }
{
    match unknown {
        Some(name) => given_member(name),
        None => Subject::None,
    }
}

// The member of this name, if it is given.
fn given_member(name: &str) -> Subject<'_>
    ensures { (ms : Members) → IsUnknown name.now ms → GivesMember ms result }
{
    match given(name) {
        Some(name) => Subject::Member(name),
        None => Subject::None,
    }
}

// What a fault of this kind is about, given the action, and one of the members that none may have.
fn subject_in<'t>(kind: LineKind, action: &'t str, unknown: Option<&'t str>) -> Subject<'t>
    ensures { (line : List ℕ) (ms : Members) → IsAction line action.now ms
        → HoldsUnknown (record { name = unknown.entry }) ms → IsSubject kind line result }
{
    match kind {
        LineKind::UnsupportedAction => action_subject(action),
        LineKind::UnsupportedField => member_subject(unknown),
        _ => Subject::None,
    }
}

/// What this fault of an action line is about: the action for `UnsupportedAction`, and the first
/// member that none may have for `UnsupportedField`. `scratch` is used as by [`extent_of`], and has
/// the name. `AllocError`: an allocation for it failed.
pub fn subject_of<'t>(
    kind: LineKind,
    line: &'t [u8],
    scratch: &'t mut Scratch,
) -> Result<Subject<'t>, AllocError>
    ensures { IfOk result (λ subject. IsSubject kind line.now subject) }
{
    match read_sole_object::<Unknown>(line, scratch) {
        Ok(Some((action, unknown))) => Ok(subject_in(kind, action, unknown.name)),
        Ok(None) => Ok(Subject::None),
        Err(ReadFault::NotJson) => Ok(Subject::None),
        Err(ReadFault::Memory) => Err(AllocError),
    }
}
