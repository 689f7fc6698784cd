//! Tests of what a server of lines stands on: groups of tasks, by which a worker polls its places; pairs over
//! the sources of a shared reactor, which a thread serves to their ends; workers that serve their places; pairs
//! dealt to workers and ends gathered; and jobs on the caller and on threads. Beside them a program of two threads.
#![tactic(auto)]

#[cfg(test)]
mod asserts;
#[cfg(test)]
mod gates;
#[cfg(test)]
mod group_tables;
#[cfg(test)]
mod groups;
#[cfg(test)]
mod jobs;
#[cfg(test)]
mod moments;
#[cfg(test)]
mod pairs;
#[cfg(test)]
mod rows;
#[cfg(test)]
mod served;
#[cfg(test)]
mod two_threads;
#[cfg(test)]
mod workers;
