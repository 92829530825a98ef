//! What objects and works keep over a service, whatever a crash leaves of it, and all generations: facts of states, and what works say of
//! their calls.
#![tactic(auto)]

mod keeps;
mod laws;
mod orders;
mod recovered;
mod served;

pub use keeps::{Keeps, PlainKeeps, keep_law};
pub use laws::{account_law, life_balance_law, life_floor_law};
pub use orders::{Orders, order_law};
pub use recovered::recover_kept;
pub use served::{BeginFault, NotBegun, serve_kept};
