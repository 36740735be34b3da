//! Tests of the book: replacement, withdrawal, and refusals that leave the book as it was.
#![tactic(auto)]

#[cfg(test)]
mod books;
