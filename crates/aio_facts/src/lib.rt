//! What a world of the reactor machine has of its sources, in the words that a reactor uses for it: numbers of
//! rounds in place of positions of the past, and keys beside serials.
//!
//! It stands on `aio_base` alone, and has definitions and lemmas of worlds, and no code: what each world of a run
//! is (`Sound`), what stands of one direction of a source (`Facts`), and how a step changes both. The proofs of
//! `aio_react` and of `aio_sound` cite them.
#![tactic(auto)]
