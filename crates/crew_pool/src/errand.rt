//! What a worker is asked to do.

/// The allowed answers to a task. A type carries it, since the rule between threads is a property of types.
pub trait Errand<T, A>: Sync {
    ghost answers: { T → A → Type 0 };
}
