// A part of a store of tokens.
#[derive(Clone, Copy)]
pub struct Span {
    pub start: usize,
    pub length: usize,
}
