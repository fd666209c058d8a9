// Seal schemes: what a scheme is asked, and two schemes.
#![tactic(auto)]

mod book;
mod books;
mod deck;
mod entries;
mod entry;
mod ledger;
mod numbering;
mod register;
mod scheme;

pub use deck::Deck;
pub use ledger::Ledger;
pub use scheme::Scheme;
