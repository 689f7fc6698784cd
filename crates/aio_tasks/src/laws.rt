//! Laws of runs with tasks, as contracts of functions with no work to do.

ghost use Rattle.std.specs.Prelude.{◌≡◌, List, map};
ghost use Rattle.aio_base.specs.World.{opening};
ghost use Rattle.aio_base.specs.Script.{output, world_after};
ghost use Rattle.aio_base.specs.declared.names.Waker.{Waker};
ghost use Rattle.aio_base.specs.declared.steps.Step.{Step};
ghost use Rattle.aio_tasks.specs.declared.steps.Step2.{Step2};
ghost use Rattle.aio_tasks.specs.Tasks.{State2, Task, made_from, name_of, opening2, output2, second_step, state_after2, wake_line};
ghost use Rattle.aio_tasks.specs.TaskLaws.{AreApart, IsWakeLine, TasksFollow};

/// Steps that name no task write what they write in the first version.
pub fn a_run_without_names_answers_as_before()
    ensures { (steps : List Step) → output2 (map (λ s. Step2.Plain s) steps) ≡ output steps }
{}

/// The steps that a run hands to the machine are a run of the machine, which ends in the world of the
/// run's last state.
pub fn the_steps_of_the_machine_are_a_run()
    ensures { (steps : List Step2) →
        (state_after2 opening2 steps).world ≡ world_after opening (made_from opening2 steps) }
{}

/// No name and no waker stands twice among the tasks, behind whatever steps.
pub fn each_name_is_of_one_waker()
    ensures { (steps : List Step2) → AreApart (state_after2 opening2 steps).tasks }
{}

/// What a step with tasks may do and has to do, by the tasks and the world before it.
pub fn a_step_follows_the_tasks()
    ensures { (v : State2) (s : Step2) → AreApart v.tasks → TasksFollow v s (second_step v s) }
{}

/// A wake is told by the name of its task, where that has one, and else by its number.
pub fn a_wake_is_told_by_its_name()
    ensures { (tasks : List Task) (w : Waker) → AreApart tasks
        → IsWakeLine tasks w (wake_line w (name_of tasks w.0)) }
{}
