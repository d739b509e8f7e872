//! What an option is where the words don't give it, as the word that it stands for.

/// The workers of a run where the words give none.
pub const DEFAULT_WORKERS: &str = "1";

/// The most moves of a run where the words don't say.
pub const DEFAULT_BUDGET: &str = "10000";

/// The entry with which a trace begins where the words don't say.
pub const DEFAULT_FROM: &str = "0";

/// The most moves of a trace where the words don't say.
pub const DEFAULT_MOST: &str = "100000";

/// The most steps of a reduction that are told where the words don't say.
pub const DEFAULT_TOLD: &str = "1000";

/// The cells of a circuit where the words don't say.
pub const DEFAULT_CELLS: &str = "1023";

/// The forks of a circuit that can be open at once where the words don't say.
pub const DEFAULT_FORKS: &str = "63";

/// The name of a circuit's module where the words don't say.
pub const DEFAULT_NAME: &str = "goi";
