// Writing sheets: the bytes of a content, block by block.
#![tactic(auto)]

mod cursor;
mod put;
pub mod source;
#[cfg(test)]
mod tests;
pub mod write;
