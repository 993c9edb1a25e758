use rv_core::TaskEnd;

/// How the task of a core had ended when the core arrived at the barrier, with the stamp of that event.
#[derive(Clone, Copy)]
pub struct EndSeen {
    pub stamp: u64,
    pub end: TaskEnd,
}
