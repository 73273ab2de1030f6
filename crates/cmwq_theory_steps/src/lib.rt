//! What one more entry does to each thing that a book of the runtime would keep, and what is active, told by few looks
//! at a history: theorems over the definitions alone.
#![tactic(auto)]

mod activation_steps;
mod active_looks;
mod histories;
mod item_pools;
mod item_queueings;
mod queued_steps;
mod queueing_steps;
mod refused_steps;
mod reply_reasons;
mod room_steps;
mod run_steps;
mod state_steps;
mod ticket_steps;
mod waiting_steps;

pub use activation_steps::activations_go_on;
pub use active_looks::active_by_looks;
pub use histories::histories_grow;
pub use item_pools::items_keep_their_pools;
pub use item_queueings::items_keep_their_queueings;
pub use queued_steps::queued_go_on;
pub use queueing_steps::queueings_go_on;
pub use refused_steps::refusals_do_nothing;
pub use reply_reasons::replies_have_reasons;
pub use room_steps::owed_goes_on;
pub use run_steps::runs_go_on;
pub use state_steps::states_go_on;
pub use ticket_steps::tickets_go_on;
pub use waiting_steps::waiting_goes_on;
