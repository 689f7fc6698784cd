//! Laws of the lines of the second version, and of the text of a trace that is written in it.

ghost use Rattle.std.specs.Prelude.{◌≡◌, ◌↔◌, ◌≤◌, ℕ, List, None, length, map};
ghost use Rattle.aio_base.specs.Lines.{NamesNoPriority, written_line};
ghost use Rattle.aio_base.specs.Script.{output};
ghost use Rattle.aio_base.specs.declared.steps.Step.{Step};
ghost use Rattle.aio_tasks.specs.Inputs.{input_of};
ghost use Rattle.aio_tasks.specs.Lines2.{Reads2, Written2, fault_of2, written_line2};
ghost use Rattle.aio_tasks.specs.Migrating.{migrated};
ghost use Rattle.aio_tasks.specs.Tasks.{output2};
ghost use Rattle.aio_tasks.specs.declared.steps.Line2.{Line2};
ghost use Rattle.aio_tasks.specs.declared.steps.Step2.{Step2};
ghost use Rattle.aio_trace2.specs.MigratedTexts.{AreNumbered};

/// A written line reads as itself and as no other.
pub fn a_written_line_reads_as_itself_alone()
    ensures reads { (m : Line2) (bytes : List ℕ) → Written2 m bytes → Reads2 m bytes }
    ensures alone { (m n : Line2) (bytes : List ℕ) → Written2 m bytes → Reads2 n bytes → n ≡ m }
{}

/// At most one line of the second version reads from bytes, and one does exactly where they have no fault.
pub fn bytes_read_as_one_line_or_have_a_fault()
    ensures one { (m n : Line2) (bytes : List ℕ) → Reads2 m bytes → Reads2 n bytes → m ≡ n }
    ensures some { (bytes : List ℕ) → ((m : Line2) × Reads2 m bytes) ↔ (fault_of2 bytes ≡ None) }
{}

/// A step that names no Priority is written as in the first version.
pub fn a_step_is_written_as_in_the_first_version()
    ensures { (s : Step) → NamesNoPriority s
        → written_line2 (Line2.Step (Step2.Plain s)) ≡ written_line s }
{}

/// The text of steps in the second version is a valid trace of it, which says the same steps.
pub fn a_migrated_text_says_the_same_steps()
    ensures { (steps : List Step) → AreNumbered steps → length steps ≤ 999999 → input_of (migrated steps)
        ≡ record { steps = map (λ s. Step2.Plain s) steps; refusal = None } }
{}

/// A trace of it answers as one of the steps in the first version.
pub fn a_migrated_text_answers_as_before()
    ensures { (steps : List Step) → AreNumbered steps → length steps ≤ 999999
        → output2 (input_of (migrated steps)).steps ≡ output steps }
{}
