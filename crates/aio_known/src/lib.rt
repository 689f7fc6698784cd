//! What is known of a world without its past, and that it says all that a step needs: how many rounds had
//! begun when a waker was stored, in place of where in the run that was, and of what lives alone.
//!
//! It stands on the machine of `aio_base`, and on what `aio_laws` and `aio_facts` prove of the worlds of a
//! run. It has definitions and laws, and no code to run.
#![tactic(auto)]

pub mod laws;
