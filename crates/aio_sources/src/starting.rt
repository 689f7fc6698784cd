//! The connections with which a table starts.

ghost use Rattle.std.specs.Prelude.{◌≡◌, ◌+◌, ◌<◌, ◌≤◌, [], length, vec_len, vec_capacity, IfOk, IfErr};
ghost use Rattle.std.specs.VecDeque.{deque_len};
ghost use Rattle.std.specs.Arc.{arc_value};
ghost use Rattle.std.specs.List.{All};
ghost use Rattle.aio_sources.specs.Starting.{Begins, BeginAll};

use crate::sealed::SourceRef;
use crate::source_table::{SourceTable, Vacancy};
use aio_base::{Arm, ArmFault, OutOfMemory};
use aio_words::Words;
use std::alloc::Global;
use std::collections::VecDeque;
use std::marker::Model;
use std::sync::Arc;

/// All the memory that connections take when they are added: that of their sources, and room for their
/// answers. Contracts see of each of these sources the words of its reactor.
pub struct Places<A: Arm> {
    vacancies: Vec<Vacancy<A>>,
    answers: Vec<Result<SourceRef<A>, ArmFault>>,
}

impl<A: Arm> Model for Places<A> {
    ghost use Rattle.std.specs.Prelude.{◌≡◌, ◌≤◌, [], List, vec_len, vec_capacity};
    ghost use Rattle.atomic_table.specs.Seated.{TableId};

    ghost Value = { List TableId };

    ghost view = { λ p. p.vacancies.items };

    ghost invariant = { λ p. (p.answers.items ≡ [])
        × (vec_len p.vacancies ≤ vec_capacity p.answers) };
}

impl<A: Arm + Drop> Drop for Places<A> {
    fn drop(self) {
        let Places {
            vacancies: _,
            answers: _,
        } = self;
    }
}

impl<A: Arm + Drop> Places<A> {
    /// The memory for so many connections. `OutOfMemory` where it is not there.
    pub fn new(
        table: &SourceTable<A>,
        words: &Arc<Words, Global>,
        alloc: Global,
        count: usize,
    ) -> Result<Places<A>, OutOfMemory>
        ensures words { IfOk result (All (λ place. place ≡ (arc_value words.now).identity)) }
        ensures len { IfOk result (λ places. length places ≡ count) }
    {
        let vacancies = take_vacancies(table, words, alloc, count)?;
        let Ok(answers) = Vec::with_capacity(alloc, count) else {
            return Err(OutOfMemory);
        };
        Ok(Places { vacancies, answers })
    }

    /// Adds connections in order, each under the least key that is free by then. Their answers stand in
    /// the same order. It takes no memory.
    pub fn add_all(
        self,
        table: &mut SourceTable<A>,
        words: &Arc<Words, Global>,
        ios: Vec<A>,
    ) -> Vec<Result<SourceRef<A>, ArmFault>>
        requires keys { length table.old + vec_len ios ≤ 4096 }
        requires words { All (λ place. place ≡ (arc_value words.now).identity) self }
        requires room { vec_len ios ≤ length self }
        ensures { BeginAll A.arm_step A.rest A.fault_count A.is_sure
            (arc_value words.now).identity table.old ios.items result.items table.new }
    {
        let Places {
            vacancies,
            mut answers,
        } = self;
        add_each(table, words, vacancies, VecDeque::from(ios), &mut answers);
        answers
    }
}

/// The memory of so many sources.
fn take_vacancies<A: Arm + Drop>(
    table: &SourceTable<A>,
    words: &Arc<Words, Global>,
    alloc: Global,
    count: usize,
) -> Result<Vec<Vacancy<A>>, OutOfMemory>
    ensures words { IfOk result (λ all.
        All (λ vacancy. vacancy ≡ (arc_value words.now).identity) all.items) }
    ensures len { IfOk result (λ all. vec_len all ≡ count) }
{
    let Ok(mut all) = Vec::with_capacity(alloc, count) else {
        return Err(OutOfMemory);
    };
    for _made in 0..count {
        all.push_reserved(table.vacancy(words)?);
    }
    Ok(all)
}

/// Adds each connection, for which there is the memory already.
fn add_each<A: Arm + Drop>(
    table: &mut SourceTable<A>,
    words: &Arc<Words, Global>,
    mut vacancies: Vec<Vacancy<A>>,
    mut ios: VecDeque<A>,
    answers: &mut Vec<Result<SourceRef<A>, ArmFault>>,
)
    requires keys { length table.old + deque_len ios ≤ 4096 }
    requires words { All (λ vacancy. vacancy ≡ (arc_value words.now).identity) vacancies.items }
    requires vacancies { deque_len ios ≤ vec_len vacancies }
    requires empty { answers.old.items ≡ [] }
    requires room { deque_len ios ≤ vec_capacity answers.old }
    ensures { BeginAll A.arm_step A.rest A.fault_count A.is_sure
        (arc_value words.now).identity table.old ios.items answers.new.items table.new }
{
    while let Some(io) = ios.pop_front() {
        let Some(vacancy) = vacancies.pop() else {
            unreachable!()
        };
        answers.push_reserved(add_one(table, vacancy, io));
    }
}

/// Adds a connection under the least free key.
fn add_one<A: Arm + Drop>(
    table: &mut SourceTable<A>,
    vacancy: Vacancy<A>,
    io: A,
) -> Result<SourceRef<A>, ArmFault>
    requires { length table.old < 4096 }
    ensures begun { Begins A.arm_step A.rest A.fault_count A.is_sure
        vacancy table.old io result table.new }
    ensures len { length table.new ≤ length table.old + 1 }
{
    let Ok(key) = table.free_key() else {
        unreachable!()
    };
    match table.admit(vacancy, key, io) {
        Ok(token) => Ok(token),
        Err((_, fault)) => Err(ArmFault {
            key,
            before: fault.before,
            after: fault.after,
        }),
    }
}
