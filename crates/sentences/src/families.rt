//! The tasks that one line declares.
ghost use Rattle.std.specs.Prelude.{◌≡◌, find, count_by};
ghost use Rattle.sentences.specs.Families.{is_of_line, family_size, family_if, family_of};

use text_places::{Places, TaskPlace};

/// The tasks of a line that declares more than one.
#[derive(Clone, Copy)]
pub(crate) struct TaskFamily {
    pub(crate) line: u32,
    /// How many there are.
    pub(crate) tasks: usize,
}

fn is_of_line(line: u32, task: TaskPlace) -> bool
    ensures { result ≡ is_of_line line task }
{
    task.line == line
}

/// How many of these tasks a line declares.
fn family_size(tasks: &[TaskPlace], line: u32) -> usize
    ensures { result ≡ family_size tasks.now line }
{
    let mut count = 0;
    for task in tasks {
        if is_of_line(line, *task) {
            count += 1;
        }
    }
    count
}

fn family_if(line: u32, tasks: usize) -> Option<TaskFamily>
    ensures { result ≡ family_if line tasks }
{
    if 1 < tasks {
        Some(TaskFamily { line, tasks })
    } else {
        None
    }
}

/// The tasks among which the task of this core in this phase is declared, if its line declares several.
pub(crate) fn family_of(places: &Places, phase: u32, core: u32) -> Option<TaskFamily>
    ensures { result ≡ family_of places.now phase core }
{
    let task = places.task(phase as usize, core)?;
    family_if(task.line, family_size(places.tasks.as_slice(), task.line))
}
