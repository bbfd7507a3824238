//! Lists of lists whose last elements are taken.
ghost use Rattle.std.specs.Prelude.{IfOk, map};
ghost use Rattle.relay_threads.specs.Rows.{HaveSome, LoseLast};

use std::alloc::{AllocError, Global};

// Takes the last element of each list, in order. `AllocError`: allocation failed; the elements that
// were taken until then are dropped.
pub(crate) fn pop_each<T: Drop>(alloc: Global, rows: &mut Vec<Vec<T>>) -> Result<Vec<T>, AllocError>
    requires { HaveSome (map (λ r. r.items) rows.old.items) }
    ensures { IfOk result (λ v. LoseLast (map (λ r. r.items) rows.old.items)
        (map (λ r. r.items) rows.new.items) v.items) }
{
    let mut lasts = Vec::new(alloc);
    for i in 0..rows.len() {
        let Some(last) = rows[i].pop() else {
            unreachable!();
        };
        lasts.push(last)?;
    }
    Ok(lasts)
}
