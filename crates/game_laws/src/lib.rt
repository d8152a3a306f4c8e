//! States and proves the laws of the game over all positions of the unbounded board.
//!
//! Each law is a public function of the module `laws` that does nothing: its doc comment is the law in words, its
//! statement is a definition in `specs/Laws.antt`, and its contract says that the statement is true. The crates above
//! cite the lemmas in `proofs`.
#![tactic(auto)]

pub mod laws;
