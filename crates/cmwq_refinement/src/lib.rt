//! The values of pools, flush books, open numbers, timers, flights and tickets refine a history: theorems that tie them
//! to the definitions, which no running code needs.
#![tactic(auto)]

mod flights;
mod flush_books;
mod item_numbers;
mod places;
mod pools;
mod tickets;
mod timers;

pub use flights::flights_refine;
pub use flush_books::flushes_refine;
pub use item_numbers::item_numbers_refine;
pub use places::places_are_there;
pub use pools::pools_refine;
pub use tickets::tickets_refine;
pub use timers::timers_refine;
