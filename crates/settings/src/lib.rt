// The setting of one interval.
#![tactic(auto)]

mod interval;

pub use interval::{IntervalSetting, setting, setting_of};
