// The three tables that are lent to an inquiry, as long as each other, and an inquiry in its tables.
#![tactic(auto)]

ghost use Rattle.std.specs.Prelude.{◌≡◌, replicate, IfOk, vec_len};

use std::alloc::{AllocError, Global};

pub mod halt;
pub mod search;
#[cfg(test)]
mod tests;

#[derive(Drop)]
pub struct Tables<S> {
    pub outer: Vec<S>,
    pub inner: Vec<S>,
    pub work: Vec<S>,
    pub ghost inner_long: { vec_len inner ≡ vec_len outer },
    pub ghost work_long: { vec_len work ≡ vec_len outer },
}

fn copies<S: Copy>(heap: Global, state: S, places: usize) -> Result<Vec<S>, AllocError>
    ensures { IfOk result (λ v. v.items ≡ replicate places state) }
{
    let mut states = Vec::new(heap);
    states.resize(places, state)?;
    Ok(states)
}

impl<S: Copy> Tables<S> {
    ghost use Rattle.tables.specs.Tables.{Long};

    // So many places, and the state in each of them.
    pub fn new(heap: Global, state: S, places: usize) -> Result<Tables<S>, AllocError>
        ensures long { IfOk result (λ t. Long places t) }
        ensures outer { IfOk result (λ t. t.outer.items ≡ replicate places state) }
        ensures inner { IfOk result (λ t. t.inner.items ≡ replicate places state) }
        ensures work { IfOk result (λ t. t.work.items ≡ replicate places state) }
    {
        Ok(Tables {
            outer: copies(heap, state, places)?,
            inner: copies(heap, state, places)?,
            work: copies(heap, state, places)?,
        })
    }
}
