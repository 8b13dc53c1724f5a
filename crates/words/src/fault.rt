// What is wrong with a sheet, in words: the function of `inspect`, whose faults print by it.
pub use inspect::words::in_words;
