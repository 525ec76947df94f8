// Marked slots in a store: which slot is whose, and whether one is filled. A slot is a mark and six
// coordinates for a face triangle; for a sphere triangle nine, and the three of b × c.
//
// A slot is a plain number, and a store a lent slice. A type for a slot of a store, or for a whole store, would be built beside each call
// by the proof that the clauses ask; or the three functions that number slots, which take any index, would ask for one below 10.
// Index and reflection are two parameters, as in the Rust: of a struct each of the three would take both out again.
ghost use Rattle.std.specs.Prelude.{◌≡◌, ◌+◌, ◌^◌, ◌<◌, if◌then◌else◌};
ghost use Rattle.stores.specs.Slots.{filled, face_slot, source_slot, sphere_slot};

// A slot, or where the call is reflected the one BY behind it.
fn reflected_by<const BY: usize>(slot: usize, reflected: bool) -> usize
    requires { slot + BY < 2 ^ 64 }
    ensures { result ≡ (if reflected then slot + BY else slot) }
{
    if reflected { slot + BY } else { slot }
}

// The face slot of a point's own triangle, by its index and reflection.
pub fn face_slot(index: u8, reflected: bool) -> usize
    ensures { result ≡ face_slot index reflected }
{
    reflected_by::<10>(usize::from(index), reflected)
}

// The face slot that a sphere triangle is built from: a reflected one from the squashed triangle.
pub fn source_slot(index: u8, reflected: bool) -> usize
    ensures { result ≡ source_slot index reflected }
{
    reflected_by::<20>(usize::from(index), reflected)
}

// The sphere slot of an origin's triangle.
pub fn sphere_slot(origin: u8, index: u8, reflected: bool) -> usize
    ensures { result ≡ sphere_slot origin index reflected }
{
    let slot = usize::from(origin) * 10 + usize::from(index);
    reflected_by::<120>(slot, reflected)
}

// The mark 1.0 stands at the start of a filled slot. There is none behind the store's end.
pub fn is_filled(store: &[f64], at: usize) -> bool
    ensures { result ≡ filled store.now at }
{
    at < store.len() && store[at] == 1.0
}
