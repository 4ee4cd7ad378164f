// The rules of the six calls, the publisher's image, and the law of runs.
#![tactic(auto)]

mod law;
mod refusal;

pub use law::{honest_cached_is_image, honest_is_image, law_of_cached_runs, law_of_runs};
pub use refusal::{CallRefusal, MountRule, Places, Refusal};
