//! What a batch means. Definitions, and the types that they speak of; nothing here runs a batch.
#![tactic(auto)]

mod errand;
mod exit;
mod failure;
mod form;
mod home;
mod laws;
mod prepared;
mod raised;
mod settings;
mod stop;

pub use errand::{Errand, Way};
pub use exit::Exit;
pub use failure::Failure;
pub use form::ReadText;
pub use home::Home;
pub use laws::law_reading;
pub use prepared::{PreparedStatement, PreparedStatements};
pub use raised::Raised;
pub use settings::Settings;
pub use stop::Stop;
