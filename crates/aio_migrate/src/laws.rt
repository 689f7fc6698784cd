//! What the text that `migrate` writes says, as contracts of functions with no work to do.

ghost use Rattle.std.specs.Prelude.{◌≡◌, ℕ, List, None, map};
ghost use Rattle.aio_base.specs.Script.{output};
ghost use Rattle.aio_base.specs.Trace.{trace_of};
ghost use Rattle.aio_tasks.specs.Inputs.{input_of};
ghost use Rattle.aio_tasks.specs.Migrating.{migrated};
ghost use Rattle.aio_tasks.specs.Tasks.{output2};
ghost use Rattle.aio_tasks.specs.declared.steps.Step2.{Step2};

/// No line of the text of an input's steps is refused in the second version, and it says these steps.
pub fn a_migrated_trace_is_valid()
    ensures { (bytes : List ℕ) → input_of (migrated (trace_of bytes).steps)
        ≡ record { steps = map (λ s. Step2.Plain s) (trace_of bytes).steps; refusal = None } }
{}

/// Its replay writes what the replay of the input writes.
pub fn a_migrated_trace_answers_as_before()
    ensures { (bytes : List ℕ)
        → output2 (input_of (migrated (trace_of bytes).steps)).steps ≡ output (trace_of bytes).steps }
{}
