//! Checks items: `walk` visits the tree depth first, `leaves` and `children` check one item's data,
//! and `memo` stores the height of each table and array (`heights`, `late_bytes`).
pub mod children;
mod heights;
mod late_bytes;
pub mod leaves;
pub mod memo;
pub mod state;
pub mod walk;
