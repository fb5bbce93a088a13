//! The daemon's statistics: what is counted, and how counts are added.
#![tactic(auto)]

mod counters;
mod figures;
mod info;
mod languages;
mod levels;
mod lines;
mod print;
mod ranks;
mod reasons;
mod rows;
mod span;
mod store_facts;
mod totals;
mod writer;

pub use counters::{DistInfo, LevelStats, PerLanguageCount, ServerInfo, ServerStats};
pub use levels::MultiLevelStats;
pub use rows::StatRow;
pub use span::Span;
pub use store_facts::StoreFacts;
pub use writer::{ServerStatsWriter, StdoutServerStatsWriter};
