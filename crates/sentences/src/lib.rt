//! Sentences on what an answer of denovo speaks of: a task that didn't finish, a text that is refused, a conflict of two tasks.
//! Each says where in the text it is, why, and how to fix it.
#![tactic(auto)]

mod claiming;
mod claims;
mod conflicts;
mod effects;
mod elsewhere;
mod endings;
mod examples;
mod families;
mod faults;
mod findings;
mod going_on;
mod guards;
mod kinds;
mod known;
mod laws;
mod loops;
mod marks;
mod operands;
mod others;
mod others_use;
mod outside;
mod quotes;
mod refusal;
mod sites;
mod standing;
mod stopping;
mod told;
mod traps;
mod uses;
mod wrong_operands;

pub use conflicts::push_conflict;
pub use endings::{Standstill, code_place_at, push_ending};
pub use going_on::push_place_behind;
pub use laws::{
    a_name_means_what_it_is_said_to_be_declared_as, a_named_loop_is_around_the_instruction,
    a_named_range_is_the_tested_one, a_quoted_effect_claims_the_word_for_its_task,
    an_effect_gives_the_words_that_it_claims, an_effect_named_as_remedy_gives_the_right,
    an_effect_named_as_remedy_suits_all_tasks_of_its_line, each_part_comes_from_its_line,
    the_marked_operand_is_the_one_that_is_named, the_marked_part_lies_in_its_line,
    the_named_words_are_those_of_the_region, the_told_lines_are_those_of_the_task,
    what_is_said_of_other_tasks_holds, what_is_said_of_own_effects_holds,
};
pub use loops::Loop;
pub use quotes::{line_spans, push_line};
pub use refusal::push_refusal;
pub use stopping::{Stop, stops};
pub use told::{ToldEffects, told_effects};
