// A set of locations, in words.
ghost use Rattle.std.specs.Prelude.{◌≡◌, IfOk, map, string_bytes, decimal};
ghost use Rattle.formula.specs.Unions.{members as members_of};
ghost use Rattle.words.specs.Members.{set_words};

use formula::set::contains;
use std::alloc::{AllocError, Global};

// A word for each member, rising.
fn words(heap: Global, locations: u8, set: u32) -> Result<Vec<String>, AllocError>
    ensures { IfOk result (λ ws. map string_bytes ws.items ≡ map decimal (members_of locations set)) }
{
    let mut words = Vec::new(heap);
    for location in (0..locations).filter(|l| contains(set, *l)) {
        words.push(location.to_string(heap)?)?;
    }
    Ok(words)
}

// The members of a set among the first `locations` locations, rising, or `none`.
pub fn members(heap: Global, locations: u8, set: u32) -> Result<String, AllocError>
    ensures { IfOk result (λ s. string_bytes s ≡ set_words locations set) }
{
    let words = words(heap, locations, set)?;
    if words.is_empty() {
        String::from_str(heap, "none")
    } else {
        words.join(heap, " ")
    }
}
