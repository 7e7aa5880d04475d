//! The bell: it wakes the members of a crew, and ends them.
use crossbeam_utils::sync::Unparker;
use std::sync::atomic::{AtomicBool, Ordering};

/// Wakes the members of a crew, and announces the end of calls.
#[derive(Drop)]
pub struct Bell {
    ended: AtomicBool,
    wakers: Vec<Unparker>,
}

impl Bell {
    /// A bell for members that sleep at these wakers.
    pub(crate) fn new(wakers: Vec<Unparker>) -> Bell {
        Bell {
            ended: AtomicBool::new(false),
            wakers,
        }
    }

    /// Announces the end of calls, and wakes all members. Each member ends once it has answered its present job.
    pub fn end(&self) {
        self.ended.store(true, Ordering::SeqCst);
        for waker in &self.wakers {
            waker.unpark();
        }
    }

    /// Wakes one member. Members are numbered from 1.
    pub(crate) fn wake(&self, member: usize) {
        if let Some(waker) = self.wakers.get(member.saturating_sub(1)) {
            waker.unpark();
        }
    }

    /// Whether no more calls come.
    pub(crate) fn is_ended(&self) -> bool {
        self.ended.load(Ordering::SeqCst)
    }
}
