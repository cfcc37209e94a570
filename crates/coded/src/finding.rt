// Finding an entry by its code.
ghost use Rattle.std.specs.Prelude.{◌≡◌, ℕ, ◌<◌, map, length, IfSome, slice_index};
ghost use Rattle.coded.specs.Places.{Rising, place};

use crate::coded::Coded;

// The place of the entry that has the code. Where the codes rise, it is the one place that has it, or none has; in any
// other list an entry that is found has the code, and one that has it may be missed.
pub fn find<E: Coded>(entries: &[E], code: u32) -> Option<usize>
    ensures found { IfSome result (λ i. (i < length entries.now) × (slice_index (map E.number entries.now) i ≡ code)) }
    ensures rising { Rising (map E.number entries.now) → result ≡ place (map E.number entries.now) code }
{
    entries
        .binary_search_by(|entry| entry.code().cmp(&code))
        .ok()
}
