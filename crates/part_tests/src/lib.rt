//! Tests of the ground, the language, the machine's parts, the halls and the machines of one thread and of several. They are a crate of
//! their own, since a crate is proved once more with its tests.
#![tactic(auto)]

#[cfg(test)]
mod answers;
#[cfg(test)]
mod banks;
#[cfg(test)]
mod barriers;
#[cfg(test)]
mod caches;
#[cfg(test)]
mod call_texts;
#[cfg(test)]
mod calls;
#[cfg(test)]
mod flat;
#[cfg(test)]
mod halls;
#[cfg(test)]
mod locks;
#[cfg(test)]
mod logs;
#[cfg(test)]
mod machine;
#[cfg(test)]
mod mails;
#[cfg(test)]
mod meeting;
#[cfg(test)]
mod met_turns;
#[cfg(test)]
mod passes;
#[cfg(test)]
mod phases;
#[cfg(test)]
mod rounds;
#[cfg(test)]
mod signatures;
#[cfg(test)]
mod talks;
#[cfg(test)]
mod tasks;
#[cfg(test)]
mod texts;
#[cfg(test)]
mod turns;
#[cfg(test)]
mod whole_calls;
#[cfg(test)]
mod works;
