//! Reading a text from front to back.
ghost use Rattle.std.specs.Prelude.{◌≡◌, ◌<◌, [], ◌∷◌, List, length, None, Some, Err};
ghost use Rattle.std.specs.Prelude.{IfOk, IfErr, IfSome, OnOk, OnErr, MatchOption, IsUtf8};
ghost use Rattle.std.specs.Bool.{MatchBool};
ghost use Rattle.json.specs.Token.{Token as SpecToken, begin_array, begin_object};
ghost use Rattle.json.specs.Lex.{tokens};
ghost use Rattle.json.specs.Reads.{token_of};
ghost use Rattle.json.specs.Scratch.{room};
ghost use Rattle.serde_json.specs.Data.{Data, Num, number, Items, Members};
ghost use Rattle.serde_json.specs.Data.{no_items, no_members, put};
ghost use Rattle.serde_json.specs.Find.{as_array, as_object};
ghost use Rattle.serde_json.specs.Read.{number_of, max_depth};
ghost use Rattle.relay_json.specs.Items.{and_item};
ghost use Rattle.relay_json.specs.Sole.{IsSoleObject, HoldsSole};
ghost use Rattle.relay_json.specs.Walks.{Reads, Refuses, IsRead, IsRefused, IsRestOf, IsPast};
ghost use Rattle.relay_json.specs.Walks.{IsLeaf, NumberStands, IsNumberPassed, Opens, items_of};
ghost use Rattle.relay_json.specs.Walks.{members_of, IsGathered, IsGatheredOrLeaf, IsCollected};

use crate::fault::ReadFault;
use crate::leaf::Leaf;
use crate::number::is_in_range;
use crate::sole::{Fields, Found};
use json::{Invalid, Reader, Scratch, Token};

// The maximum depth of nested arrays and objects.
const MAX_DEPTH: usize = 127;

#[inline(always)]
fn number<'t>(text: &'t str) -> Result<Leaf<'t>, Invalid>
    ensures ok { IfOk result
        (λ leaf. (n : Num) × (number_of text.now ≡ Some n) × IsLeaf leaf (number n)) }
    ensures number { IfOk result (λ leaf. leaf ≡ Leaf.Number text.entry) }
    ensures err { OnErr result (number_of text.now ≡ None) }
{
    if is_in_range(text) {
        Ok(Leaf::Number(text))
    } else {
        Err(Invalid)
    }
}

// The top level of the value whose first token was taken. The whole value is passed.
#[cycle(pass)]
#[inline(always)]
fn pass_from<'t>(
    token: Token<'t>,
    reader: &mut Reader<'t>,
    depth: usize,
) -> Result<Leaf<'t>, Invalid>
    ensures ok { IfOk result (λ leaf. (d : Data)
        × Reads depth (token_of token.entry ∷ reader.old) d reader.new × IsLeaf leaf d) }
    ensures number { IfOk result
        (λ leaf. NumberStands (token_of token.entry ∷ reader.old) leaf reader.new) }
    ensures opened { IfOk result (λ leaf. (leaf ≡ Leaf.Array → token.entry ≡ Token.BeginArray)
        × (leaf ≡ Leaf.Object → token.entry ≡ Token.BeginObject)) }
    ensures err { OnErr result (Refuses depth (token_of token.entry ∷ reader.old)) }
    ensures past { IsRestOf reader.new reader.old }
{
    match token {
        Token::String(text) => Ok(Leaf::String(text)),
        Token::Number(text) => number(text),
        Token::Bool(truth) => Ok(Leaf::Bool(truth)),
        Token::Null => Ok(Leaf::Null),
        Token::EndObject | Token::EndArray | Token::Key(_) | Token::Bad => Err(Invalid),
        Token::BeginArray => {
            if depth == 0 {
                return Err(Invalid);
            }
            pass_items(reader, depth - 1)?;
            Ok(Leaf::Array)
        }
        Token::BeginObject => {
            if depth == 0 {
                return Err(Invalid);
            }
            pass_members(reader, depth - 1)?;
            Ok(Leaf::Object)
        }
    }
}

// The top level of the next value. The whole value is passed.
#[cycle(pass)]
#[inline(always)]
fn pass<'t>(reader: &mut Reader<'t>, depth: usize) -> Result<Leaf<'t>, Invalid>
    ensures ok { IfOk result
        (λ leaf. (d : Data) × Reads depth reader.old d reader.new × IsLeaf leaf d) }
    ensures number { IfOk result (λ leaf. NumberStands reader.old leaf reader.new) }
    ensures err { OnErr result (Refuses depth reader.old) }
    ensures past { IsRestOf reader.new reader.old }
{
    let token = reader.next().ok_or(Invalid)?;
    pass_from(token, reader, depth)
}

// Passes the items of an array and its closing bracket.
#[cycle(pass)]
#[inline(never)]
fn pass_items(reader: &mut Reader<'_>, depth: usize) -> Result<(), Invalid>
    ensures ok { OnOk result ((ds : Items)
        × (items_of depth reader.old ≡ Some (ds, reader.new))) }
    ensures err { OnErr result (items_of depth reader.old ≡ None) }
    ensures past { IsRestOf reader.new reader.old }
{
    'items: while !reader.take_end_array() {
        pass(reader, depth)?;
    }
    Ok(())
}

// Passes the members of an object and its closing bracket.
#[cycle(pass)]
#[inline(never)]
fn pass_members(reader: &mut Reader<'_>, depth: usize) -> Result<(), Invalid>
    ensures ok { OnOk result ((ms : Members)
        × (members_of depth reader.old ≡ Some (ms, reader.new))) }
    ensures err { OnErr result (members_of depth reader.old ≡ None) }
    ensures past { IsRestOf reader.new reader.old }
{
    'members: while let Some(_) = reader.next_key()? {
        pass(reader, depth)?;
    }
    Ok(())
}

/// A position in a text, before a value. Values are read one after another, and nothing is kept of
/// them.
///
/// A walk only moves forward. An error ends the reading of its text: the walk is then at the value
/// that could not be read, inside it or after it, and a later call would read the rest of that
/// value, or of what follows it, rather than a value of the text.
#[derive(Drop)]
pub struct Walk<'t> {
    reader: Reader<'t>,
    // How deep the next value may be nested.
    depth: usize,
}

/// What is gathered from the members of an object, which are passed to it one after another.
pub trait Gather<'t>: Drop {
    /// What it has gathered from these members: of members with the same name, from the last.
    ghost Holds: { Self → Members → Type 0 };

    /// Whether it may fail to allocate.
    ghost MayFail: { Type 0 };

    /// Reads the value of the next member. An error ends the reading of the text, and no
    /// member follows.
    fn member(&mut self, name: &'t str, walk: &mut Walk<'t>) -> Result<(), ReadFault>
        ensures ok { OnOk result ((d : Data) × IsRead walk.old d walk.new
            × ((ms : Members) → Holds self.old ms → Holds self.new (put name.now d ms))) }
        ensures not_json { result ≡ Err ReadFault.NotJson → IsRefused walk.old }
        ensures memory { result ≡ Err ReadFault.Memory → MayFail }
        ensures past { IsPast walk.old walk.new };
}

/// What is collected from the items of an array, which are passed to it one after another.
pub trait Collect<'t>: Drop {
    /// What it has collected from these items.
    ghost Holds: { Self → Items → Type 0 };

    /// Whether it may fail to allocate.
    ghost MayFail: { Type 0 };

    /// Reads the next item. An error ends the reading of the text, and no item follows.
    fn item(&mut self, walk: &mut Walk<'t>) -> Result<(), ReadFault>
        ensures ok { OnOk result ((d : Data) × IsRead walk.old d walk.new
            × ((ds : Items) → Holds self.old ds → Holds self.new (and_item ds d))) }
        ensures not_json { result ≡ Err ReadFault.NotJson → IsRefused walk.old }
        ensures memory { result ≡ Err ReadFault.Memory → MayFail }
        ensures past { IsPast walk.old walk.new };
}

impl<'t> Walk<'t> {
    pub(crate) fn over(text: &'t [u8], scratch: &'t mut Scratch) -> Result<Walk<'t>, ReadFault>
        ensures ok { IfOk result (λ walk. IsUtf8 text.now × (walk.reader ≡ tokens text.now)
            × (walk.depth ≡ max_depth)) }
        ensures not_json { result ≡ Err ReadFault.NotJson → IsUtf8 text.now → ⊥ }
        ensures memory { result ≡ Err ReadFault.Memory → room scratch.old < length text.now }
    {
        let Ok(text) = simdutf8::compat::from_utf8(text) else {
            return Err(ReadFault::NotJson);
        };
        let Ok(reader) = Reader::new(text, scratch) else {
            return Err(ReadFault::Memory);
        };
        Ok(Walk {
            reader,
            depth: MAX_DEPTH,
        })
    }

    // Refuses anything but blanks up to the end of the text.
    pub(crate) fn end(&mut self) -> Result<(), ReadFault>
        ensures ok { OnOk result (self.old.reader ≡ []) }
        ensures err { IfErr result (λ e. (e ≡ ReadFault.NotJson)
            × (t : SpecToken) × (ts : List SpecToken) × (self.old.reader ≡ t ∷ ts)) }
    {
        if self.reader.next().is_some() {
            return Err(ReadFault::NotJson);
        }
        Ok(())
    }

    /// The top level of the next value, which is passed. An error ends the reading: later calls
    /// would read the rest of the value that was refused.
    #[inline(always)]
    pub fn leaf(&mut self) -> Result<Leaf<'t>, ReadFault>
        ensures ok { IfOk result (λ leaf. (d : Data) × IsRead self.old d self.new × IsLeaf leaf d) }
        ensures number { IfOk result (λ leaf. IsNumberPassed self.old leaf self.new) }
        ensures err { IfErr result (λ e. (e ≡ ReadFault.NotJson) × IsRefused self.old) }
        ensures past { IsPast self.old self.new }
    {
        Ok(pass(&mut self.reader, self.depth)?)
    }

    // Passes on the members of the object whose opening bracket was taken.
    fn members<G: Gather<'t>>(&mut self, start: G) -> Result<G, ReadFault>
        requires { G.Holds start no_members }
        ensures ok { IfOk result (λ g. (ms : Members)
            × (members_of self.old.depth self.old.reader ≡ Some (ms, self.new.reader))
            × (self.new.depth ≡ self.old.depth) × G.Holds g ms) }
        ensures not_json { result ≡ Err ReadFault.NotJson
            → members_of self.old.depth self.old.reader ≡ None }
        ensures memory { result ≡ Err ReadFault.Memory → G.MayFail }
        ensures past { IsPast self.old self.new }
    {
        let mut gathered = start;
        'members: while let Some(name) = self.reader.next_key()? {
            gathered.member(name, self)?;
        }
        Ok(gathered)
    }

    // Looks for the only member of the object whose opening bracket was taken.
    fn sole_member<F: Fields<'t>>(&mut self) -> Result<Found<'t, F>, ReadFault>
        ensures ok { IfOk result (λ found. (ms : Members)
            × (members_of self.old.depth self.old.reader ≡ Some (ms, self.new.reader))
            × (self.new.depth ≡ self.old.depth) × HoldsSole F.Holds found ms) }
        ensures not_json { result ≡ Err ReadFault.NotJson
            → members_of self.old.depth self.old.reader ≡ None }
        ensures memory { result ≡ Err ReadFault.Memory → F.MayFail }
        ensures past { IsPast self.old self.new }
    {
        let mut found = Found::Nothing;
        'members: while let Some(name) = self.reader.next_key()? {
            let value = self.gather(F::none())?;
            found = found.and_member(name, value);
        }
        Ok(found)
    }

    // Passes on the items of the array whose opening bracket was taken.
    fn items<C: Collect<'t>>(&mut self, start: C) -> Result<C, ReadFault>
        requires { C.Holds start no_items }
        ensures ok { IfOk result (λ c. (ds : Items)
            × (items_of self.old.depth self.old.reader ≡ Some (ds, self.new.reader))
            × (self.new.depth ≡ self.old.depth) × C.Holds c ds) }
        ensures not_json { result ≡ Err ReadFault.NotJson
            → items_of self.old.depth self.old.reader ≡ None }
        ensures memory { result ≡ Err ReadFault.Memory → C.MayFail }
        ensures past { IsPast self.old self.new }
    {
        let mut collected = start;
        'items: while !self.reader.take_end_array() {
            collected.item(self)?;
        }
        Ok(collected)
    }

    // The top level of the next value, which is passed; or `None` if it is an object, and then only
    // its opening bracket was taken.
    pub(crate) fn leaf_or_object(&mut self) -> Result<Option<Leaf<'t>>, ReadFault>
        ensures ok { IfOk result (λ found. MatchOption found (Opens begin_object self.old self.new)
            (λ leaf. (d : Data) × IsRead self.old d self.new × (as_object d ≡ None)
            × IsLeaf leaf d)) }
        ensures number { IfOk result
            (λ found. IfSome found (λ leaf. IsNumberPassed self.old leaf self.new)) }
        ensures err { IfErr result (λ e. (e ≡ ReadFault.NotJson) × IsRefused self.old) }
        ensures past { IsPast self.old self.new }
    {
        let token = self.reader.next().ok_or(Invalid)?;
        if let Token::BeginObject = token {
            if self.depth == 0 {
                return Err(ReadFault::NotJson);
            }
            self.depth -= 1;
            return Ok(None);
        }
        Ok(Some(pass_from(token, &mut self.reader, self.depth)?))
    }

    // Whether the next value is an array. If so, its opening bracket was taken, otherwise the value
    // was passed.
    fn opens_array(&mut self) -> Result<bool, ReadFault>
        ensures ok { IfOk result (λ opened. MatchBool opened (Opens begin_array self.old self.new)
            ((d : Data) × IsRead self.old d self.new × (as_array d ≡ None))) }
        ensures err { IfErr result (λ e. (e ≡ ReadFault.NotJson) × IsRefused self.old) }
        ensures past { IsPast self.old self.new }
    {
        let token = self.reader.next().ok_or(Invalid)?;
        if let Token::BeginArray = token {
            if self.depth == 0 {
                return Err(ReadFault::NotJson);
            }
            self.depth -= 1;
            return Ok(true);
        }
        pass_from(token, &mut self.reader, self.depth)?;
        Ok(false)
    }

    /// Reads the next value. If it is an object, its members are passed to `start`, which is
    /// returned; otherwise the top level of the value is returned. An error ends the reading: later
    /// calls would read the rest of the value that was refused.
    pub fn gather_or_leaf<G: Gather<'t>>(
        &mut self,
        start: G,
    ) -> Result<Result<G, Leaf<'t>>, ReadFault>
        requires { G.Holds start no_members }
        ensures ok { IfOk result
            (λ found. (d : Data) × IsRead self.old d self.new × IsGatheredOrLeaf G.Holds d found) }
        ensures number { IfOk result
            (λ found. IfErr found (λ leaf. IsNumberPassed self.old leaf self.new)) }
        ensures not_json { result ≡ Err ReadFault.NotJson → IsRefused self.old }
        ensures memory { result ≡ Err ReadFault.Memory → G.MayFail }
        ensures past { IsPast self.old self.new }
    {
        let depth = self.depth;
        if let Some(leaf) = self.leaf_or_object()? {
            return Ok(Err(leaf));
        }
        let gathered = self.members(start)?;
        self.depth = depth;
        Ok(Ok(gathered))
    }

    /// Reads the next value. If it is an object, its members are passed to `start`, which is
    /// returned. An error ends the reading: later calls would read the rest of the value that was
    /// refused.
    pub fn gather<G: Gather<'t>>(&mut self, start: G) -> Result<Option<G>, ReadFault>
        requires { G.Holds start no_members }
        ensures ok { IfOk result
            (λ found. (d : Data) × IsRead self.old d self.new × IsGathered G.Holds d found) }
        ensures not_json { result ≡ Err ReadFault.NotJson → IsRefused self.old }
        ensures memory { result ≡ Err ReadFault.Memory → G.MayFail }
        ensures past { IsPast self.old self.new }
    {
        Ok(self.gather_or_leaf(start)?.ok())
    }

    /// Reads the next value. If it is an array, its items are passed to `start`, which is returned.
    /// An error ends the reading: later calls would read the rest of the value that was refused.
    pub fn collect<C: Collect<'t>>(&mut self, start: C) -> Result<Option<C>, ReadFault>
        requires { C.Holds start no_items }
        ensures ok { IfOk result
            (λ found. (d : Data) × IsRead self.old d self.new × IsCollected C.Holds d found) }
        ensures not_json { result ≡ Err ReadFault.NotJson → IsRefused self.old }
        ensures memory { result ≡ Err ReadFault.Memory → C.MayFail }
        ensures past { IsPast self.old self.new }
    {
        let depth = self.depth;
        if !self.opens_array()? {
            return Ok(None);
        }
        let collected = self.items(start)?;
        self.depth = depth;
        Ok(Some(collected))
    }

    /// Reads the next value, and returns the name of its only member, and what was gathered from
    /// that member's value. `None`: the value is not an object, it has no member or members with
    /// different names, or the value of the member is not an object. An error ends the reading:
    /// later calls would read the rest of the value that was refused.
    pub fn sole_object<F: Fields<'t>>(&mut self) -> Result<Option<(&'t str, F)>, ReadFault>
        ensures ok { IfOk result
            (λ found. (d : Data) × IsRead self.old d self.new × IsSoleObject F.Holds d found) }
        ensures not_json { result ≡ Err ReadFault.NotJson → IsRefused self.old }
        ensures memory { result ≡ Err ReadFault.Memory → F.MayFail }
        ensures past { IsPast self.old self.new }
    {
        let depth = self.depth;
        if self.leaf_or_object()?.is_some() {
            return Ok(None);
        }
        let found = self.sole_member::<F>()?;
        self.depth = depth;
        Ok(found.object())
    }
}
