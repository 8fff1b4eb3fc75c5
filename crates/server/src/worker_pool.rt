//! Those who answer jobs over one book: what each needs is cut at the start, and what each leaves is gathered and settled.
mod cutting;
mod fault;
mod gathering;

pub use cutting::PoolBuilder;
pub use fault::PoolFault;
pub use gathering::PoolShutdown;
