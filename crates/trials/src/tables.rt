// Tables to begin with.
ghost use Rattle.std.specs.Prelude.{◌≡◌, [], IfSome};
ghost use Rattle.table.specs.Right.{Right, room, listed};

use std::alloc::Global;

// An empty table with so much room, or none where there is no memory for it. `serve::make` does so too, of a number as it was read: to call that would bring all that reads and writes text beneath the trials, and the crate of the table takes no heap.
pub fn empty_table(heap: Global, wanted: u32) -> Option<Vec<u32>>
    ensures { IfSome result (λ v. Right 1 v.items × (listed 1 v.items ≡ []) × (room v.items ≡ wanted)) }
{
    let long = table::row_length(wanted)?;
    let mut row = vec![in heap; 0; long].ok()?;
    table::make_empty(&mut row, wanted).ok()?;
    Some(row)
}

#[cfg(test)]
mod tests {
    use super::*;

    // That there is memory for one no contract says.
    #[test]
    fn there_is_memory(rt: HostRuntime) {
        assert!(rt; empty_table(rt.alloc(), 100).is_some());
    }
}
