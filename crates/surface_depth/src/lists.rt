//! Lists by number.

ghost use Rattle.std.specs.Prelude.{◌≡◌, [], replicate, IfOk, OnOk};
ghost use Rattle.surface_depth.specs.Lists.{pushed};

use quartz_tree::NoMemory;
use sqlite_items::Items;
use std::alloc::Global;

/// So many empty lists.
pub(crate) fn empty_lists<T: Drop>(alloc: Global, count: usize) -> Result<Vec<Items<T>>, NoMemory>
    ensures { IfOk result (λ v. v.items ≡ replicate count []) }
{
    let mut lists = Vec::new(alloc);
    for _list in 0..count {
        lists.push(Items::new(alloc))?;
    }
    Ok(lists)
}

/// One thing more in the list with that number, if there is one.
#[tactic(auto, using(crate::proofs::ListLemmas::pushed_set, crate::proofs::ListLemmas::pushed_out))]
pub(crate) fn push_at<T: Drop>(
    lists: &mut Vec<Items<T>>,
    at: usize,
    item: T,
) -> Result<(), NoMemory>
    ensures { OnOk result (lists.new.items ≡ pushed lists.old.items at item) }
{
    if at < lists.len() {
        lists[at].push(item)?;
    }
    Ok(())
}
