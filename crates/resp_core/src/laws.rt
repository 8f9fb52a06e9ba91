//! The laws: functions that do nothing, and whose contracts are proved.

pub use resp_args::laws::law_of_dropped_writers;
pub use resp_command::laws::{
    law_of_cloned_arguments, law_of_commands_in_memory, law_of_equal_arguments, law_of_packing,
    law_of_requests, law_of_scans, law_of_taking,
};
pub use resp_errors::laws::{law_of_equal_errors, law_of_error_texts};
pub use resp_parse::laws::{
    law_of_completion, law_of_levels, law_of_limits, law_of_prefixes, law_of_sizes,
};
pub use resp_pipeline::laws::{law_of_pipelines, law_of_pipelines_in_memory};
pub use resp_value::{ExactClone, StructuralEq, law_of_clones, law_of_equal_values};
