//! Reading a whole text.
ghost use Rattle.std.specs.Prelude.{◌≡◌, ◌<◌, ◌⊎◌, None, Some, Err, IfOk, length, IsUtf8};
ghost use Rattle.json.specs.Scratch.{room};
ghost use Rattle.serde_json.specs.Data.{Data, no_members};
ghost use Rattle.serde_json.specs.Read.{read};
ghost use Rattle.relay_json.specs.Sole.{IsSoleObject};
ghost use Rattle.relay_json.specs.Walks.{IsGathered};

use crate::fault::ReadFault;
use crate::sole::Fields;
use crate::walk::{Gather, Walk};
use json::Scratch;

/// Reads a text: JSON (RFC 8259) in UTF-8, nested at most 127 deep, in which each number is a
/// 64-bit integer or fits a float. If the value is an object, its members are passed to `start`,
/// which is returned; otherwise the result is `None`. Of members with the same name the last
/// counts.
///
/// `scratch` is a buffer that serves one text after another. No result depends on what is in it,
/// and it only grows, to the length of the longest text; no contract says that it keeps its room,
/// since it is lent for as long as what was read is in use.
pub fn read_object<'t, G: Gather<'t>>(
    text: &'t [u8],
    scratch: &'t mut Scratch,
    start: G,
) -> Result<Option<G>, ReadFault>
    requires { G.Holds start no_members }
    ensures ok { IfOk result (λ found. IsUtf8 text.now × (d : Data) × (read text.now ≡ Some d)
        × IsGathered G.Holds d found) }
    ensures not_json { result ≡ Err ReadFault.NotJson → IsUtf8 text.now → read text.now ≡ None }
    ensures memory { result ≡ Err ReadFault.Memory
        → G.MayFail ⊎ (room scratch.old < length text.now) }
{
    let mut walk = Walk::over(text, scratch)?;
    let found = walk.gather(start)?;
    walk.end()?;
    Ok(found)
}

/// Reads a text as [`read_object`] does, and returns the name of its only member, and what was
/// gathered from that member's value. `None`: the value is not an object, it has no member or
/// members with different names, or the value of the member is not an object. `scratch` is used in
/// the same way.
pub fn read_sole_object<'t, F: Fields<'t>>(
    text: &'t [u8],
    scratch: &'t mut Scratch,
) -> Result<Option<(&'t str, F)>, ReadFault>
    ensures ok { IfOk result (λ found. IsUtf8 text.now × (d : Data) × (read text.now ≡ Some d)
        × IsSoleObject F.Holds d found) }
    ensures not_json { result ≡ Err ReadFault.NotJson → IsUtf8 text.now → read text.now ≡ None }
    ensures memory { result ≡ Err ReadFault.Memory
        → F.MayFail ⊎ (room scratch.old < length text.now) }
{
    let mut walk = Walk::over(text, scratch)?;
    let sole = walk.sole_object::<F>()?;
    walk.end()?;
    Ok(sole)
}
